// Nets with a change for each line.
use crate::checks::{check_lines, lines_of};
use crate::edits::{ACCEPTED, Edit, REFUSED, edited_records, make_all};
use crate::random_inputs::{random_edit, random_records};
use crate::samples::{lattice, line};
use figures::five_lines;
use nets::{ListNet, MAX_FEE, Net, PatchedNet};
use random::Random;
use std::alloc::AllocGlobal;
use std::process::Abort;
use std::test::*;

#[test]
fn a_list_is_unchanged_at_first(rt: HostRuntime) {
    let mut records = five_lines();
    let net = PatchedNet::new(ListNet::new(5, &mut records));
    assert_eq!(rt; net.stations(), 5);
    check_lines(&rt, &net, &five_lines());
}

#[test]
fn a_lattice_is_unchanged_at_first(rt: HostRuntime) -> Result<(), Fail> {
    let beneath = lattice(16, 32)?;
    let lines = lines_of(rt.alloc(), &beneath)?;
    let net = PatchedNet::new(beneath);
    assert_eq!(rt; net.stations(), 512);
    check_lines(&rt, &net, lines.as_slice());
    Ok(())
}

#[test]
fn edits_over_a_list(rt: HostRuntime) {
    let mut records = five_lines();
    let mut net = PatchedNet::new(ListNet::new(5, &mut records));
    make_all(&rt, &mut net, &ACCEPTED);
    check_lines(&rt, &net, &edited_records());
    // the table of the net beneath
    assert_eq!(rt; records, five_lines());
}

#[test]
fn edits_over_a_lattice(rt: HostRuntime) -> Result<(), Fail> {
    let mut net = PatchedNet::new(lattice(1, 2)?);
    let edits = [
        (0, Edit::Price(1, 2), Ok(())),
        (1, Edit::Open(true), Ok(())),
        (6, Edit::Open(false), Ok(())),
        (7, Edit::Price(3, 4), Ok(())),
    ];
    make_all(&rt, &mut net, &edits);
    let want = [
        line(0, 1, 1, 2, true),
        line(0, 0, 200, 300, true),
        line(0, 0, 70_000, 300, false),
        line(0, 0, MAX_FEE, 300, false),
        line(1, 1, 10, 300, false),
        line(1, 1, 200, 300, false),
        line(1, 0, 70_000, 300, false),
        line(1, 1, 3, 4, false),
    ];
    check_lines(&rt, &net, &want);
    Ok(())
}

#[test]
fn refused_edits_change_nothing(rt: HostRuntime) {
    let mut records = five_lines();
    let mut net = PatchedNet::new(ListNet::new(5, &mut records));
    make_all(&rt, &mut net, &REFUSED);
    check_lines(&rt, &net, &five_lines());
}

#[test]
fn the_last_line_of_the_most(rt: HostRuntime) -> Result<(), Fail> {
    let mut net = PatchedNet::new(lattice(512, 1)?);
    let edits = [
        (2_047, Edit::Price(1, 2), Ok(())),
        (2_047, Edit::Open(false), Ok(())),
        (2_048, Edit::Open(false), Err(12)),
    ];
    make_all(&rt, &mut net, &edits);
    assert_eq!(rt; net.line(2_047), Some(line(511, 510, 1, 2, false)));
    Ok(())
}

// That a net under changes takes edits as a list of the same lines does.
fn check_same_edits(
    rt: &(impl Abort + AllocGlobal),
    random: &mut Random,
    beneath: impl Net + Drop,
) -> Result<(), Fail> {
    let mut records = lines_of(rt.alloc(), &beneath)?;
    let mut list = ListNet::new(beneath.stations(), records.as_mut_slice());
    let mut patched = PatchedNet::new(beneath);
    for _ in 0..30 {
        let k = random.below(45) as usize;
        let edit = random_edit(random);
        assert_eq!(rt; edit.make(&mut patched, k), edit.make(&mut list, k));
    }
    check_lines(rt, &patched, records.as_slice());
    Ok(())
}

#[test]
fn edits_as_of_a_list(rt: HostRuntime) -> Result<(), Fail> {
    let mut random = Random::new(3);
    for stations in 1..=20 {
        let mut records = random_records(rt.alloc(), &mut random, 40, stations)?;
        let list = ListNet::new(stations as usize, records.as_mut_slice());
        check_same_edits(&rt, &mut random, list)?;
        check_same_edits(&rt, &mut random, lattice(1, stations as usize)?)?;
    }
    Ok(())
}

// Nets of many shapes, written and read back.
use crate::checks::check_round_trip;
use crate::random_inputs::{random_edit, random_records};
use crate::samples::{lattice, line};
use nets::{ListNet, Net, PatchedNet};
use random::Random;
use std::alloc::AllocGlobal;
use std::process::Abort;
use std::test::*;

#[test]
fn lines_of_every_kind(rt: HostRuntime) -> Result<(), Fail> {
    let mut records = [
        line(0, 0, 1, 1, true),
        line(0, 0, 0, 0, false),
        line(0, 1, 127, 128, true),
        line(0, 1, 127, 128, true),
        line(1, 0, 16_384, 16_383, false),
    ];
    check_round_trip(&rt, &ListNet::new(2, &mut records))?;
    check_round_trip(&rt, &ListNet::new(1, &mut []))
}

#[test]
fn list_nets(rt: HostRuntime) -> Result<(), Fail> {
    let mut random = Random::new(1);
    for stations in 1..=20 {
        for _ in 0..15 {
            let lines = random.below(41);
            let mut records = random_records(rt.alloc(), &mut random, lines, stations)?;
            let net = ListNet::new(stations as usize, records.as_mut_slice());
            check_round_trip(&rt, &net)?;
        }
    }
    Ok(())
}

#[test]
fn lattice_nets(rt: HostRuntime) -> Result<(), Fail> {
    for (rows, columns) in [(1, 1), (2, 3), (1, 512), (512, 1), (7, 11), (16, 32)] {
        check_round_trip(&rt, &lattice(rows, columns)?)?;
    }
    Ok(())
}

// The round trip of a net after some edits.
fn check_edited_trip(
    rt: &(impl Abort + AllocGlobal),
    random: &mut Random,
    beneath: impl Net + Drop,
) -> Result<(), Fail> {
    let mut net = PatchedNet::new(beneath);
    for _ in 0..20 {
        let k = random.below(45) as usize;
        let _ = random_edit(random).make(&mut net, k);
    }
    check_round_trip(rt, &net)
}

#[test]
fn patched_nets(rt: HostRuntime) -> Result<(), Fail> {
    let mut random = Random::new(2);
    for stations in 1..=20 {
        let mut records = random_records(rt.alloc(), &mut random, 40, stations)?;
        let list = ListNet::new(stations as usize, records.as_mut_slice());
        check_edited_trip(&rt, &mut random, list)?;
        check_edited_trip(&rt, &mut random, lattice(1, stations as usize)?)?;
    }
    Ok(())
}

// Nets over a table of records.
use crate::checks::check_lines;
use crate::edits::{ACCEPTED, Edit, REFUSED, edited_records, make_all};
use crate::samples::{BLANK, line};
use figures::five_lines;
use nets::{Line, ListNet, MAX_FEE, MAX_LINES, MAX_LOSS, MAX_STATIONS, Net, Refusal};
use std::test::*;

// Records just beyond the limits of a line, in a net of five stations.
fn faulty_records() -> [Line; 5] {
    [
        line(5, 0, 1, 1, true),
        line(0, 5, 1, 1, true),
        line(0, 0, MAX_FEE + 1, 1, true),
        line(0, 0, 1, MAX_LOSS + 1, true),
        line(u32::MAX, u32::MAX, u32::MAX, u32::MAX, false),
    ]
}

// The judging of stations and records, with the number of its refusal.
fn judged(stations: usize, records: &[Line]) -> Result<(), u8> {
    ListNet::judge(stations, records).map_err(Refusal::number)
}

#[test]
fn judging_accepts_the_limits(rt: HostRuntime) -> Result<(), Fail> {
    judged(1, &[])?;
    judged(1, &[line(0, 0, MAX_FEE, MAX_LOSS, true)])?;
    judged(5, &[line(4, 4, 0, 0, false)])?;
    let records = vec![in rt.alloc(); line(511, 511, 0, 0, true); MAX_LINES]?;
    assert_eq!(rt; judged(MAX_STATIONS, records.as_slice()), Ok(()));
    Ok(())
}

#[test]
fn judging_refuses_counts(rt: HostRuntime) -> Result<(), Fail> {
    for stations in [0, MAX_STATIONS + 1, usize::MAX] {
        assert_eq!(rt; judged(stations, &[]), Err(16));
    }
    let records = vec![in rt.alloc(); BLANK; MAX_LINES + 1]?;
    assert_eq!(rt; judged(5, records.as_slice()), Err(16));
    Ok(())
}

#[test]
fn judging_refuses_records(rt: HostRuntime) {
    for record in faulty_records() {
        assert_eq!(rt; judged(5, &[BLANK, record]), Err(16));
    }
}

#[test]
fn counts_read_as_the_nearest(rt: HostRuntime) {
    for (given, read) in [
        (0, 1),
        (1, 1),
        (512, 512),
        (513, 512),
        (600, 512),
        (usize::MAX, 512),
    ] {
        assert_eq!(rt; ListNet::new(given, &mut []).stations(), read);
    }
}

#[test]
fn faulty_records_read_as_blank(rt: HostRuntime) {
    check_lines(&rt, &ListNet::new(5, &mut faulty_records()), &[BLANK; 5]);
    // by the count as it is read: 0 as 1, and 600 as 512
    let kept = line(0, 0, 1, 2, true);
    check_lines(
        &rt,
        &ListNet::new(0, &mut [kept, line(0, 1, 1, 2, true)]),
        &[kept, BLANK],
    );
    let kept = line(511, 511, 1, 2, true);
    check_lines(
        &rt,
        &ListNet::new(600, &mut [kept, line(511, 512, 1, 2, true)]),
        &[kept, BLANK],
    );
}

#[test]
fn records_past_the_most_are_not_read(rt: HostRuntime) -> Result<(), Fail> {
    let last = line(1, 2, 3, 4, true);
    let lines = vec![in rt.alloc(); last; MAX_LINES]?;
    let mut records = vec![in rt.alloc(); last; MAX_LINES + 2]?;
    let mut net = ListNet::new(5, records.as_mut_slice());
    check_lines(&rt, &net, lines.as_slice());
    let edits = [
        (MAX_LINES - 1, Edit::Open(true), Ok(())),
        (MAX_LINES, Edit::Open(true), Err(12)),
    ];
    make_all(&rt, &mut net, &edits);
    Ok(())
}

#[test]
fn refused_edits_change_nothing(rt: HostRuntime) {
    let mut records = five_lines();
    make_all(&rt, &mut ListNet::new(5, &mut records), &REFUSED);
    assert_eq!(rt; records, five_lines());
}

#[test]
fn an_edit_changes_one_record(rt: HostRuntime) {
    let mut records = five_lines();
    make_all(&rt, &mut ListNet::new(5, &mut records), &ACCEPTED);
    assert_eq!(rt; records, edited_records());
}

#[test]
fn an_edit_of_a_faulty_record_writes_it_whole(rt: HostRuntime) {
    let mut records = faulty_records();
    let edits = [
        (0, Edit::Price(7, 8), Ok(())),
        (1, Edit::Open(true), Ok(())),
        (4, Edit::Open(false), Ok(())),
    ];
    make_all(&rt, &mut ListNet::new(5, &mut records), &edits);
    let [_, _, fee, loss, _] = faulty_records();
    let want = [
        line(0, 0, 7, 8, false),
        line(0, 0, 0, 0, true),
        fee,
        loss,
        BLANK,
    ];
    assert_eq!(rt; records, want);
}

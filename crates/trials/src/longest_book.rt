// The longest book: the most stations, and the most lines of the longest records.
use crate::checks::{LONGEST, check_round_trip};
use crate::samples::FILL;
use books::write_book;
use nets::{Line, ListNet, MAX_FEE, MAX_LINES, MAX_LOSS, MAX_STATIONS, Refusal};
use std::alloc::Global;
use std::test::*;

const LONGEST_RECORD: Line = Line {
    from: 511,
    to: 511,
    fee: MAX_FEE,
    loss: MAX_LOSS,
    open: true,
};

// Writes the longest book, and answers its length.
fn write_longest(heap: Global, out: &mut [u8]) -> Result<Result<usize, u8>, Fail> {
    let mut records = vec![in heap; LONGEST_RECORD; MAX_LINES]?;
    let net = ListNet::new(MAX_STATIONS, records.as_mut_slice());
    Ok(write_book(&net, out).map_err(Refusal::number))
}

#[test]
fn reads_back(rt: HostRuntime) -> Result<(), Fail> {
    let mut records = vec![in rt.alloc(); LONGEST_RECORD; MAX_LINES]?;
    ListNet::judge(MAX_STATIONS, records.as_slice())?;
    check_round_trip(&rt, &ListNet::new(MAX_STATIONS, records.as_mut_slice()))
}

#[test]
fn fits_its_length(rt: HostRuntime) -> Result<(), Fail> {
    let mut out = vec![in rt.alloc(); FILL; LONGEST]?;
    assert_eq!(rt; write_longest(rt.alloc(), out.as_mut_slice())?, Ok(LONGEST));
    Ok(())
}

#[test]
fn is_not_written_to_less(rt: HostRuntime) -> Result<(), Fail> {
    let mut out = vec![in rt.alloc(); FILL; LONGEST - 1]?;
    assert_eq!(rt; write_longest(rt.alloc(), out.as_mut_slice())?, Err(17));
    assert_eq!(rt; out, vec![in rt.alloc(); FILL; LONGEST - 1]?);
    Ok(())
}

#[test]
fn leaves_what_is_behind_it(rt: HostRuntime) -> Result<(), Fail> {
    let mut out = vec![in rt.alloc(); FILL; LONGEST + 1]?;
    assert_eq!(rt; write_longest(rt.alloc(), out.as_mut_slice())?, Ok(LONGEST));
    assert_eq!(rt; out.last().copied(), Some(FILL));
    Ok(())
}

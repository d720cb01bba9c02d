// Each refusal of a book: its number, its place, its layer, and its line where a record is at fault.
use crate::checks::{Told, expect_fault};
use books::Layer::{Book, Number, Record};
use std::alloc::AllocGlobal;
use std::process::Abort;
use std::test::*;

// Each table of the tests has room for this many records.
const ROOM: usize = 5;

type Cases<'a> = &'a [(&'a [u8], Told)];

// A number at fault in the head.
const HEAD_NUMBERS: Cases<'static> = &[
    (&[], (1, 0, Number, None)),
    (&[0x81], (1, 0, Number, None)),
    (&[1], (1, 1, Number, None)),
    (&[1, 0x85], (1, 1, Number, None)),
    (&[1, 5], (1, 2, Number, None)),
    (&[1, 5, 0x80], (1, 2, Number, None)),
    (&[0xFF, 0xFF, 0xFF, 0xFF, 0x10], (2, 0, Number, None)),
    (&[1, 0xFF, 0xFF, 0xFF, 0xFF, 0x10, 0], (2, 1, Number, None)),
    (&[1, 5, 0x80, 0x80, 0x80, 0x80, 0x80], (2, 2, Number, None)),
    (&[0x81, 0, 5, 0], (3, 0, Number, None)),
    (&[1, 0x85, 0, 0], (3, 1, Number, None)),
    (&[1, 5, 0x80, 0], (3, 2, Number, None)),
];

// A number at fault in a record: in each field, and in the second line.
const RECORD_NUMBERS: Cases<'static> = &[
    (&[1, 5, 1], (1, 3, Number, Some(0))),
    (&[1, 5, 1, 0x80], (1, 3, Number, Some(0))),
    (&[1, 5, 1, 0, 1, 0x80], (1, 5, Number, Some(0))),
    (
        &[1, 5, 1, 0, 0xFF, 0xFF, 0xFF, 0xFF, 0x10],
        (2, 4, Number, Some(0)),
    ),
    (
        &[1, 5, 1, 0, 1, 0xFF, 0xFF, 0xFF, 0xFF, 0x1F],
        (2, 5, Number, Some(0)),
    ),
    (&[1, 5, 1, 0, 1, 9, 0x87, 0, 1], (3, 6, Number, Some(0))),
    (&[1, 5, 1, 0, 1, 9, 7, 0x81, 0], (3, 7, Number, Some(0))),
    (&[1, 5, 2, 0, 1, 9, 7, 1], (1, 8, Number, Some(1))),
    (&[1, 5, 2, 0, 1, 9, 7, 1, 0x80, 0], (3, 8, Number, Some(1))),
];

// The head and the end.
const BOOK_FAULTS: Cases<'static> = &[
    (&[0, 5, 0], (4, 0, Book, None)),
    (&[2, 5, 0], (4, 0, Book, None)),
    (&[0x81, 1, 5, 0], (4, 0, Book, None)),
    (&[1, 0, 0], (5, 1, Book, None)),
    (&[1, 0x81, 4, 0], (5, 1, Book, None)),
    (&[1, 5, 0x81, 0x10], (5, 2, Book, None)),
    (&[1, 0x80, 4, 6], (6, 3, Book, None)),
    (&[1, 5, 0, 7], (9, 3, Book, None)),
    (&[1, 5, 1, 0, 1, 9, 7, 1, 0x80, 0], (9, 8, Book, None)),
];

// A field of a record beyond its limit.
const RECORD_FAULTS: Cases<'static> = &[
    (&[1, 5, 1, 5, 1, 9, 7, 1], (7, 3, Record, Some(0))),
    (&[1, 5, 1, 0, 5, 9, 7, 1], (7, 4, Record, Some(0))),
    (
        &[1, 5, 1, 0, 1, 0x80, 0x80, 0x80, 8, 7, 1],
        (8, 5, Record, Some(0)),
    ),
    (
        &[1, 5, 1, 0, 1, 9, 0x80, 0x80, 4, 1],
        (8, 6, Record, Some(0)),
    ),
    (&[1, 5, 1, 0, 1, 9, 7, 2], (8, 7, Record, Some(0))),
    (
        &[1, 5, 2, 0, 1, 9, 7, 1, 6, 1, 9, 7, 1],
        (7, 8, Record, Some(1)),
    ),
    (
        &[1, 5, 2, 0, 1, 9, 7, 1, 2, 1, 9, 7, 3],
        (8, 12, Record, Some(1)),
    ),
];

// Two faults, of which the first is told: a field is judged before the next is read.
const ORDER: Cases<'static> = &[
    (&[2], (4, 0, Book, None)),
    (&[2, 0x80, 0], (4, 0, Book, None)),
    (&[1, 0], (5, 1, Book, None)),
    (&[1, 0x81, 4, 0x80], (5, 1, Book, None)),
    // more lines than a net may have, and than the table has records
    (&[1, 5, 0x81, 0x10], (5, 2, Book, None)),
    // a short table, and no record or a faulty one
    (&[1, 5, 6], (6, 2, Book, None)),
    (&[1, 5, 6, 5, 0x80], (6, 2, Book, None)),
    (&[1, 5, 1, 5], (7, 3, Record, Some(0))),
    (&[1, 5, 1, 5, 5], (7, 3, Record, Some(0))),
    (&[1, 5, 1, 0, 5, 0x80], (7, 4, Record, Some(0))),
    (
        &[1, 5, 1, 0, 1, 0x80, 0x80, 0x80, 8],
        (8, 5, Record, Some(0)),
    ),
    (
        &[1, 5, 1, 0, 1, 9, 0x80, 0x80, 4, 0x80],
        (8, 6, Record, Some(0)),
    ),
    // a fault of a record, and bytes behind it
    (&[1, 5, 1, 0, 1, 9, 7, 2, 2], (8, 7, Record, Some(0))),
];

fn expect_faults(rt: &(impl Abort + AllocGlobal), cases: Cases) -> Result<(), Fail> {
    for (book, want) in cases {
        expect_fault(rt, ROOM, *book, *want)?;
    }
    Ok(())
}

#[test]
fn numbers_of_the_head(rt: HostRuntime) -> Result<(), Fail> {
    expect_faults(&rt, HEAD_NUMBERS)
}

#[test]
fn numbers_of_a_record(rt: HostRuntime) -> Result<(), Fail> {
    expect_faults(&rt, RECORD_NUMBERS)
}

#[test]
fn faults_of_a_book(rt: HostRuntime) -> Result<(), Fail> {
    expect_faults(&rt, BOOK_FAULTS)
}

#[test]
fn faults_of_a_record(rt: HostRuntime) -> Result<(), Fail> {
    expect_faults(&rt, RECORD_FAULTS)
}

#[test]
fn the_first_fault_is_told(rt: HostRuntime) -> Result<(), Fail> {
    expect_faults(&rt, ORDER)
}

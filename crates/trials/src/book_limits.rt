// The limits of a book, each from both sides.
use crate::checks::{Told, expect_fault};
use crate::samples::MARK;
use books::Layer::{Book, Number, Record};
use books::read_book;
use nets::MAX_LINES;
use std::alloc::Global;
use std::test::*;

// A book within a limit, the book just beyond it, and what that one's fault tells. Each has at most one line.
const PAIRS: [(&[u8], &[u8], Told); 10] = [
    // the fewest stations and the most
    (&[1, 1, 0], &[1, 0, 0], (5, 1, Book, None)),
    (&[1, 0x80, 4, 0], &[1, 0x81, 4, 0], (5, 1, Book, None)),
    // stations of a line, of 1, 5 and 512
    (
        &[1, 1, 1, 0, 0, 0, 0, 0],
        &[1, 1, 1, 1, 0, 0, 0, 0],
        (7, 3, Record, Some(0)),
    ),
    (
        &[1, 5, 1, 4, 0, 0, 0, 1],
        &[1, 5, 1, 5, 0, 0, 0, 1],
        (7, 3, Record, Some(0)),
    ),
    (
        &[1, 5, 1, 0, 4, 0, 0, 1],
        &[1, 5, 1, 0, 5, 0, 0, 1],
        (7, 4, Record, Some(0)),
    ),
    (
        &[1, 0x80, 4, 1, 0xFF, 3, 0xFF, 3, 0, 0, 1],
        &[1, 0x80, 4, 1, 0xFF, 3, 0x80, 4, 0, 0, 1],
        (7, 6, Record, Some(0)),
    ),
    // a fee of 16,777,215 and of one more
    (
        &[1, 5, 1, 0, 1, 0xFF, 0xFF, 0xFF, 7, 0, 1],
        &[1, 5, 1, 0, 1, 0x80, 0x80, 0x80, 8, 0, 1],
        (8, 5, Record, Some(0)),
    ),
    // a loss of 65,535 and of one more
    (
        &[1, 5, 1, 0, 1, 0, 0xFF, 0xFF, 3, 1],
        &[1, 5, 1, 0, 1, 0, 0x80, 0x80, 4, 1],
        (8, 6, Record, Some(0)),
    ),
    // open
    (
        &[1, 5, 1, 0, 1, 0, 0, 1],
        &[1, 5, 1, 0, 1, 0, 0, 2],
        (8, 7, Record, Some(0)),
    ),
    // the end
    (&[1, 5, 0], &[1, 5, 0, 0], (9, 3, Book, None)),
];

fn expect_accepted(heap: Global, room: usize, book: &[u8]) -> Result<(), Fail> {
    let mut table = vec![in heap; MARK; room]?;
    read_book(book, table.as_mut_slice())?;
    Ok(())
}

#[test]
fn both_sides_of_each_limit(rt: HostRuntime) -> Result<(), Fail> {
    for (within, beyond, want) in PAIRS {
        expect_accepted(rt.alloc(), 1, within)?;
        expect_fault(&rt, 1, beyond, want)?;
    }
    Ok(())
}

#[test]
fn most_lines(rt: HostRuntime) -> Result<(), Fail> {
    let heap = rt.alloc();
    // 2,048 lines are taken, and the first record is not there
    expect_fault(&rt, MAX_LINES, &[1, 5, 0x80, 0x10], (1, 4, Number, Some(0)))?;
    expect_fault(&rt, MAX_LINES, &[1, 5, 0x81, 0x10], (5, 2, Book, None))?;
    expect_fault(&rt, MAX_LINES + 1, &[1, 5, 0x81, 0x10], (5, 2, Book, None))
}

#[test]
fn room_for_the_lines(rt: HostRuntime) -> Result<(), Fail> {
    let book = [1, 5, 2, 0, 1, 9, 7, 1, 1, 0, 9, 7, 0];
    expect_accepted(rt.alloc(), 2, &book)?;
    expect_fault(&rt, 1, &book, (6, 2, Book, None))?;
    expect_fault(&rt, 0, &book, (6, 2, Book, None))?;
    // a net with no line needs no room
    expect_accepted(rt.alloc(), 0, &[1, 5, 0])
}

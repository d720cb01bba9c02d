// Books whose bytes and lines stand side by side, read and written.
use crate::checks::check_marks;
use crate::samples::{FILL, MARK, WIDE, wide_records};
use books::{Head, read_book, write_book};
use nets::{Line, ListNet};
use std::process::Abort;
use std::test::*;

// That the book is read as these lines, and the records beyond them are left.
fn check_read(rt: &impl Abort, book: &[u8], stations: usize, lines: &[Line]) {
    let mut table = [MARK; 8];
    let head = Head {
        stations,
        lines: lines.len(),
    };
    assert_eq!(rt; read_book(book, &mut table), Ok(head));
    assert!(rt; lines.len() < table.len());
    let (read, others) = table.split_at(lines.len());
    assert_eq!(rt; read, lines);
    check_marks(rt, others);
}

// That a net of these lines is written as the book, and the bytes beyond it are left.
fn check_written(
    rt: &impl Abort,
    book: &[u8],
    stations: usize,
    lines: &mut [Line],
) -> Result<(), Fail> {
    let mut out = [FILL; 32];
    let length = write_book(&ListNet::new(stations, lines), &mut out)?;
    assert!(rt; length < out.len());
    let (written, others) = out.split_at(length);
    assert_eq!(rt; written, book);
    assert!(rt; others.iter().all(|byte| *byte == FILL));
    Ok(())
}

fn check_sample(
    rt: &impl Abort,
    book: &[u8],
    stations: usize,
    lines: &mut [Line],
) -> Result<(), Fail> {
    check_read(rt, book, stations, lines);
    check_written(rt, book, stations, lines)
}

#[test]
fn five_lines(rt: HostRuntime) -> Result<(), Fail> {
    check_sample(
        &rt,
        &figures::five_line_book(),
        5,
        &mut figures::five_lines(),
    )
}

#[test]
fn wide_numbers(rt: HostRuntime) -> Result<(), Fail> {
    check_sample(&rt, &WIDE, 512, &mut wide_records())
}

#[test]
fn no_lines(rt: HostRuntime) -> Result<(), Fail> {
    check_sample(&rt, &[1, 7, 0], 7, &mut [])
}

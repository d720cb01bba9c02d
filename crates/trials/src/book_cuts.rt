// Books cut short at every byte, and too long by one.
use crate::checks::expect_fault;
use crate::samples::WIDE;
use books::Layer::{Book, Number};
use figures::five_line_book;
use std::test::*;

// Where the numbers of the wide book begin.
const STARTS: [usize; 13] = [0, 1, 3, 4, 6, 8, 12, 15, 16, 18, 20, 23, 26];

// The beginning of the number that a cut of the wide book takes a byte from.
fn start_before(cut: usize) -> usize {
    let before = STARTS.partition_point(|start| *start <= cut);
    STARTS[..before].last().copied().unwrap_or(0)
}

#[test]
fn one_byte_more(rt: HostRuntime) -> Result<(), Fail> {
    let mut book = five_line_book().to_vec(rt.alloc())?;
    book.push(0)?;
    expect_fault(&rt, 5, book.as_slice(), (9, 28, Book, None))
}

#[test]
fn cut_at_every_byte(rt: HostRuntime) -> Result<(), Fail> {
    let book = five_line_book();
    for cut in 0..book.len() {
        let line = cut.checked_sub(3).map(|into| into / 5);
        expect_fault(&rt, 5, &book[..cut], (1, cut, Number, line))?;
    }
    Ok(())
}

#[test]
fn wide_numbers_cut_at_every_byte(rt: HostRuntime) -> Result<(), Fail> {
    for cut in 0..WIDE.len() {
        let line = match cut {
            0..4 => None,
            4..16 => Some(0),
            _ => Some(1),
        };
        let want = (1, start_before(cut), Number, line);
        expect_fault(&rt, 2, &WIDE[..cut], want)?;
    }
    Ok(())
}

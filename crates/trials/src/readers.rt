// The cursor of a reader.
use crate::checks::tell;
use books::Layer::Book;
use books::{Head, Reader};
use figures::{five_line_book, five_lines};
use std::test::*;

#[test]
fn goes_through_a_book(rt: HostRuntime) -> Result<(), Fail> {
    let book = five_line_book();
    let lines = five_lines();
    let mut reader = Reader::new(&book);
    let head = reader.head(5)?;
    let want = Head {
        stations: 5,
        lines: 5,
    };
    assert_eq!(rt; (head, reader.at), (want, 3));
    for (k, want) in lines.iter().enumerate() {
        assert_eq!(rt; reader.record(k, head.stations), Ok(*want));
    }
    assert!(rt; reader.end().is_ok());
    Ok(())
}

#[test]
fn stays_at_a_fault(rt: HostRuntime) -> Result<(), Fail> {
    let mut reader = Reader::new(&[1, 5, 1, 0, 1, 9, 7, 2]);
    assert!(rt; reader.head(0).is_err());
    assert_eq!(rt; reader.at, 2);
    reader.at = 3;
    assert!(rt; reader.record(0, 5).is_err());
    assert_eq!(rt; reader.at, 7);
    assert_eq!(rt; reader.end().map_err(tell), Err((9, 7, Book, None)));
    Ok(())
}

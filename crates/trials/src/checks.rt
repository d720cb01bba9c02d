// Comparisons that the tests share.
use crate::samples::MARK;
use books::{BookFault, Head, Layer, read_book, write_book};
use nets::{Line, Lines, ListNet, Net};
use std::alloc::{AllocError, AllocGlobal, Global};
use std::process::Abort;
use std::test::*;

// How many bytes the longest book has: a head of 5 and 2,048 records of 12.
pub(crate) const LONGEST: usize = 24_581;

// What a fault tells: the number, as users are told it, the place, the layer, and the line where a record is at fault.
pub(crate) type Told = (u8, usize, Layer, Option<usize>);

// A function and no `From`: a tuple is no type of ours.
pub(crate) fn tell(fault: BookFault) -> Told {
    let line = match fault {
        BookFault::Record(record) => Some(record.line),
        _ => None,
    };
    (fault.refusal().number(), fault.place(), fault.layer(), line)
}

// That each record of a table is the mark.
pub(crate) fn check_marks(rt: &impl Abort, table: &[Line]) {
    for record in table {
        assert_eq!(rt; *record, MARK);
    }
}

// That a net has just these lines.
pub(crate) fn check_lines(rt: &impl Abort, net: &impl Net, want: &[Line]) {
    assert_eq!(rt; net.line_count(), want.len());
    for (k, line) in want.iter().enumerate() {
        assert_eq!(rt; net.line(k), Some(*line), "line {k}");
    }
    assert!(rt; net.line(want.len()).is_none() && net.line(usize::MAX).is_none());
    assert!(rt; Lines::of(net).eq(want.iter().copied()));
}

// The lines of a net.
pub(crate) fn lines_of(heap: Global, net: &impl Net) -> Result<Vec<Line>, AllocError> {
    Lines::of(net).collect(heap)
}

// That a book is refused, with room for so many records, and the table stays as it was.
pub(crate) fn expect_fault(
    rt: &(impl Abort + AllocGlobal),
    room: usize,
    book: &[u8],
    want: Told,
) -> Result<(), Fail> {
    let mut table = vec![in rt.alloc(); MARK; room]?;
    let answer = read_book(book, table.as_mut_slice()).map_err(tell);
    assert_eq!(rt; answer, Err(want), "{book:?}");
    check_marks(rt, table.as_slice());
    Ok(())
}

// The book of a net.
fn book_of(heap: Global, net: &impl Net) -> Result<Vec<u8>, Fail> {
    let mut out = vec![in heap; 0; LONGEST]?;
    let length = write_book(net, out.as_mut_slice())?;
    out.truncate(length);
    Ok(out)
}

// That the book of a net reads back as that net, and the net that was read has the same book.
pub(crate) fn check_round_trip(
    rt: &(impl Abort + AllocGlobal),
    net: &impl Net,
) -> Result<(), Fail> {
    let book = book_of(rt.alloc(), net)?;
    let mut table = vec![in rt.alloc(); MARK; net.line_count()]?;
    let head = read_book(book.as_slice(), table.as_mut_slice())?;
    let (stations, lines) = (net.stations(), net.line_count());
    assert_eq!(rt; head, Head { stations, lines });
    check_lines(rt, net, table.as_slice());
    let again = ListNet::new(head.stations, table.as_mut_slice());
    assert_eq!(rt; book_of(rt.alloc(), &again)?, book);
    Ok(())
}

// Books, lines and lattices that the tests begin with.
use figures::{LATTICE_FEES, LATTICE_LOSS, open_line};
use nets::{LatticeNet, Line, MAX_FEE, MAX_LOSS, Refusal};

// A book of 512 stations and two lines, in which most numbers have several bytes.
pub(crate) const WIDE: [u8; 27] = *b"\x01\x80\x04\x02\
    \xFF\x03\x80\x01\xFF\xFF\xFF\x07\xFF\xFF\x03\x01\
    \x80\x02\x90\x03\x80\x80\x01\xC8\x80\x01\x00";

// What an output holds before a book is written to it.
pub(crate) const FILL: u8 = 0xA5;

// A record that no book of the tests has, which fills a table before a book is read into it.
pub(crate) const MARK: Line = Line {
    from: 77,
    to: 78,
    fee: 79,
    loss: 80,
    open: true,
};

// A shut line from station 0 to itself, at no fee and no loss, written out: what a test expects is not taken from the code under test.
pub(crate) const BLANK: Line = Line {
    from: 0,
    to: 0,
    fee: 0,
    loss: 0,
    open: false,
};

pub(crate) fn line(from: u32, to: u32, fee: u32, loss: u32, open: bool) -> Line {
    Line {
        open,
        ..open_line(from, to, fee, loss)
    }
}

// The lines of the wide book.
pub(crate) fn wide_records() -> [Line; 2] {
    [
        line(511, 128, MAX_FEE, MAX_LOSS, true),
        line(256, 400, 16_384, 16_456, false),
    ]
}

pub(crate) fn lattice(rows: usize, columns: usize) -> Result<LatticeNet, Refusal> {
    LatticeNet::new(rows, columns, LATTICE_FEES, LATTICE_LOSS)
}

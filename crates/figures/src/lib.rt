// The worked figures: examples with what the definitions give for them, and that they do.
#![tactic(auto)]

ghost use Rattle.std.specs.Prelude.{◌≡◌};
ghost use Rattle.figures.specs.Figures.{Figures, SheetFigures};
ghost use Rattle.figures.specs.FiveLines.{open_line, five_lines, five_line_book};

use nets::{LatticeFees, Line};

// A theorem: the definitions that the library's contracts cite give the worked figures.
pub fn figures_hold()
    ensures books { Figures }
    ensures sheets { SheetFigures }
{}

// The fees and the loss of the lattices that tests begin with.
pub const LATTICE_FEES: LatticeFees = LatticeFees {
    east: 10,
    south: 200,
    west: 70_000,
    north: 16_777_215,
};

pub const LATTICE_LOSS: u32 = 300;

// An open line.
pub fn open_line(from: u32, to: u32, fee: u32, loss: u32) -> Line
    ensures { result ≡ open_line from to fee loss }
{
    Line {
        from,
        to,
        fee,
        loss,
        open: true,
    }
}

// The lines of the five-line example, a net of five stations.
pub fn five_lines() -> [Line; 5]
    ensures { result ≡ five_lines.lines }
{
    [
        open_line(0, 1, 10, 3),
        open_line(0, 2, 3, 9),
        open_line(2, 1, 4, 1),
        open_line(1, 3, 2, 7),
        open_line(2, 3, 12, 2),
    ]
}

// The book of the five-line example.
pub fn five_line_book() -> [u8; 28]
    ensures { result ≡ five_line_book }
{
    *b"\x01\x05\x05\
    \x00\x01\x0A\x03\x01\
    \x00\x02\x03\x09\x01\
    \x02\x01\x04\x01\x01\
    \x01\x03\x02\x07\x01\
    \x02\x03\x0C\x02\x01"
}

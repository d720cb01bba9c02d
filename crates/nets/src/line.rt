ghost use Rattle.std.specs.Prelude.{◌≡◌};
ghost use Rattle.nets.specs.Model.{price_fits};

use crate::limits::{MAX_FEE, MAX_LOSS};

// A leased line from one station to another: in the field's words, a directed edge with two weights.
// A shut line carries nothing. The fields may hold any numbers; a net says which of them it takes.
#[derive(Clone, Copy, Debug, PartialEq, Eq)]
pub struct Line {
    pub from: u32,
    pub to: u32,
    pub fee: u32,
    pub loss: u32,
    pub open: bool,
}

// A shut line from station 0 to station 0, at no fee and no loss: what a record beyond the limits reads as.
pub const BLANK_LINE: Line = Line {
    from: 0,
    to: 0,
    fee: 0,
    loss: 0,
    open: false,
};

// Whether a fee and a loss are within their limits. It is `&` here and in `fits`: by `&&` a list net took 1.7 times the instructions
// and about twice the time to answer a line.
pub(crate) fn price_fits(fee: u32, loss: u32) -> bool
    ensures { result ≡ price_fits fee loss }
{
    (fee <= MAX_FEE) & (loss <= MAX_LOSS)
}

impl Line {
    ghost use Rattle.nets.specs.Edits.{with_price, with_open};
    ghost use Rattle.nets.specs.Listed.{seen};
    ghost use Rattle.nets.specs.Model.{line_fits};

    // Whether the line is within the limits of a net of so many stations.
    pub(crate) fn fits(self, stations: usize) -> bool
        ensures { result ≡ line_fits stations self }
    {
        ((self.from as usize) < stations)
            & ((self.to as usize) < stations)
            & price_fits(self.fee, self.loss)
    }

    // The line as a net of so many stations reads it.
    pub(crate) fn read(self, stations: usize) -> Line
        ensures { result ≡ seen stations self }
    {
        if self.fits(stations) {
            self
        } else {
            BLANK_LINE
        }
    }

    // The line with another fee and loss.
    pub(crate) fn with_price(self, fee: u32, loss: u32) -> Line
        ensures { result ≡ with_price fee loss self }
    {
        Line { fee, loss, ..self }
    }

    // The line opened or shut.
    pub(crate) fn with_open(self, open: bool) -> Line
        ensures { result ≡ with_open «open» self }
    {
        Line { open, ..self }
    }
}

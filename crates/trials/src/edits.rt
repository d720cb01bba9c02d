// Edits as values, and edits of the five lines of a sample.
use crate::samples::line;
use nets::{EditableNet, Line, MAX_FEE, MAX_LOSS, Refusal};
use std::process::Abort;
use std::test::*;

// An enum, since edits stand in constants, are copied, and are made on nets of both kinds.
#[derive(Clone, Copy)]
pub(crate) enum Edit {
    // a fee and a loss
    Price(u32, u32),
    // open or shut
    Open(bool),
}

impl Edit {
    pub(crate) fn make(self, net: &mut impl EditableNet, k: usize) -> Result<(), u8> {
        let answer = match self {
            Edit::Price(fee, loss) => net.set_price(k, fee, loss),
            Edit::Open(open) => net.set_open(k, open),
        };
        answer.map_err(Refusal::number)
    }
}

// The line that is edited, the edit, and what it answers, a refusal by its number, as users are told it.
pub(crate) type Step = (usize, Edit, Result<(), u8>);

pub(crate) const ACCEPTED: [Step; 6] = [
    (0, Edit::Price(MAX_FEE, MAX_LOSS), Ok(())),
    (2, Edit::Open(false), Ok(())),
    (4, Edit::Price(6, 7), Ok(())),
    (4, Edit::Open(false), Ok(())),
    (4, Edit::Price(0, 8), Ok(())),
    (3, Edit::Open(true), Ok(())),
];

// The five lines after the edits above.
pub(crate) fn edited_records() -> [Line; 5] {
    [
        line(0, 1, MAX_FEE, MAX_LOSS, true),
        line(0, 2, 3, 9, true),
        line(2, 1, 4, 1, false),
        line(1, 3, 2, 7, true),
        line(2, 3, 0, 8, false),
    ]
}

// Where there is no such line, that is answered whatever the price.
pub(crate) const REFUSED: [Step; 6] = [
    (5, Edit::Price(MAX_FEE + 1, MAX_LOSS + 1), Err(12)),
    (5, Edit::Price(0, 0), Err(12)),
    (5, Edit::Open(false), Err(12)),
    (usize::MAX, Edit::Open(false), Err(12)),
    (4, Edit::Price(MAX_FEE + 1, 0), Err(13)),
    (0, Edit::Price(0, MAX_LOSS + 1), Err(13)),
];

// Makes the edits one after another, and compares what they answer.
pub(crate) fn make_all(rt: &impl Abort, net: &mut impl EditableNet, steps: &[Step]) {
    for (k, edit, want) in steps {
        assert_eq!(rt; edit.make(net, *k), *want, "{}", *k);
    }
}

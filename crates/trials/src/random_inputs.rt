// Random lines and edits.
use crate::edits::Edit;
use crate::samples::line;
use nets::{Line, MAX_FEE, MAX_LOSS};
use random::Random;
use std::alloc::{AllocError, Global};

// A number up to `most`, often a short one or `most` itself.
fn up_to(random: &mut Random, most: u32) -> u32 {
    match random.below(6) {
        0 => most,
        1 => random.below(128),
        2 => random.below(16_384),
        _ => random.below(most.saturating_add(1)),
    }
}

fn random_line(random: &mut Random, stations: u32) -> Line {
    line(
        random.below(stations),
        random.below(stations),
        up_to(random, MAX_FEE),
        up_to(random, MAX_LOSS),
        random.below(4) > 0,
    )
}

pub(crate) fn random_records(
    heap: Global,
    random: &mut Random,
    lines: u32,
    stations: u32,
) -> Result<Vec<Line>, AllocError> {
    (0..lines)
        .map(|_| random_line(random, stations))
        .collect(heap)
}

// An edit, in one of eight cases beyond the limits.
pub(crate) fn random_edit(random: &mut Random) -> Edit {
    match random.below(8) {
        0 => Edit::Price(MAX_FEE + 1, 0),
        1 | 2 | 3 => Edit::Open(random.below(2) == 0),
        _ => Edit::Price(up_to(random, MAX_FEE), up_to(random, MAX_LOSS)),
    }
}

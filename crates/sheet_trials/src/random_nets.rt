// Random nets of many shapes.
use nets::Line;
use random::Random;
use std::alloc::{AllocError, Global};

// How many stations and lines, below which number fees and losses are drawn, and how many lines of eight are shut.
#[derive(Clone, Copy)]
pub(crate) struct Shape {
    pub stations: u32,
    pub lines: u32,
    pub prices: u32,
    pub shut: u32,
}

impl Shape {
    pub(crate) fn new(stations: u32, lines: u32, prices: u32, shut: u32) -> Shape {
        Shape {
            stations,
            lines,
            prices,
            shut,
        }
    }

    pub(crate) fn records(
        &self,
        heap: Global,
        random: &mut Random,
    ) -> Result<Vec<Line>, AllocError> {
        let line = |_| Line {
            from: random.below(self.stations),
            to: random.below(self.stations),
            fee: random.below(self.prices),
            loss: random.below(self.prices),
            open: random.below(8) >= self.shut,
        };
        (0..self.lines).map(line).collect(heap)
    }
}

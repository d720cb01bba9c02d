ghost use Rattle.std.specs.Prelude.{◌≤◌};
ghost use Rattle.costs.specs.Largest.{largest};

// What a fee or a loss means as a cost: a whole number up to the largest. No code makes one.
pub struct Amount {
    pub number: u32,
    ghost fits: { number ≤ largest },
}

// The largest number, which stands for the cost none. A number and no Option of one: none is the greatest cost, so the order and the sum
// of numbers are those of costs as they stand.
pub(crate) const LARGEST: u32 = u32::MAX;

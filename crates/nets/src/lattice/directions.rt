ghost use Rattle.std.specs.Prelude.{◌≡◌};
ghost use Rattle.nets.specs.Lattice.{direction_of, fee_of, fees_fit};

use crate::limits::MAX_FEE;

// How many directions there are, and so how many lines begin at each station.
pub(super) const DIRECTIONS: usize = 4;

#[derive(Clone, Copy)]
pub(super) enum Direction {
    East,
    South,
    West,
    North,
}

// The direction of line 4s + d, by d.
impl From<usize> for Direction {
    ghost from_gives = { λ d r. r ≡ direction_of d };

    fn from(d: usize) -> Direction {
        match d {
            0 => Direction::East,
            1 => Direction::South,
            2 => Direction::West,
            _ => Direction::North,
        }
    }
}

// One fee for each direction.
#[derive(Clone, Copy)]
pub struct LatticeFees {
    pub east: u32,
    pub south: u32,
    pub west: u32,
    pub north: u32,
}

impl LatticeFees {
    // Whether each fee is within its limit.
    pub(super) fn fit(self) -> bool
        ensures { result ≡ fees_fit self }
    {
        self.east <= MAX_FEE
            && self.south <= MAX_FEE
            && self.west <= MAX_FEE
            && self.north <= MAX_FEE
    }

    // The fee in a direction.
    pub(super) fn fee(self, d: Direction) -> u32
        ensures { result ≡ fee_of self d }
    {
        match d {
            Direction::East => self.east,
            Direction::South => self.south,
            Direction::West => self.west,
            Direction::North => self.north,
        }
    }
}

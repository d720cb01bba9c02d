ghost use Rattle.nets.specs.Lattice.{LatticeLimits};

mod directions;
mod lines;

pub use directions::LatticeFees;

// A net worked out from rows and columns of stations. The stations are numbered row by row. From each a line leads to
// the next station east, south, west and north; where there is none, that line is shut and leads to its own station.
#[derive(Clone, Copy)]
pub struct LatticeNet {
    rows: usize,
    columns: usize,
    fees: LatticeFees,
    loss: u32,
    ghost limits: { LatticeLimits rows columns fees loss },
}

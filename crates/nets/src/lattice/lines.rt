ghost use Rattle.std.specs.Prelude.{◌≡◌, ◌*◌, ◌<◌, ◌≤◌, true, is_ok, IfOk};
ghost use Rattle.std.specs.Result.{result_err};
ghost use Rattle.nets.specs.Model.{max_stations, Sound};
ghost use Rattle.nets.specs.Lattice.{directions, size_fits, lattice_fits, lattice_refusal, station_at, neighbour, lattice};
ghost use Rattle.nets.specs.LatticeSound.{sound_lattice};

use crate::lattice::directions::{DIRECTIONS, Direction};
use crate::lattice::{LatticeFees, LatticeNet};
use crate::limits::{MAX_LOSS, MAX_STATIONS};
use crate::line::Line;
use crate::net::Net;
use crate::refusal::Refusal;

// Whether that many rows and columns have a number of stations within the limits.
fn size_fits(rows: usize, columns: usize) -> bool
    ensures { result ≡ size_fits rows columns }
{
    rows.checked_mul(columns)
        .is_some_and(|stations| (1..=MAX_STATIONS).contains(&stations))
}

// Whether a lattice is within its limits. What is not yet judged is no `LatticeNet`, so its parts go side by side.
fn lattice_fits(rows: usize, columns: usize, fees: LatticeFees, loss: u32) -> bool
    ensures { result ≡ lattice_fits rows columns fees loss }
{
    size_fits(rows, columns) && fees.fit() && loss <= MAX_LOSS
}

// How many lines begin at so many stations.
fn lines_from(stations: usize) -> usize
    requires { stations ≤ max_stations }
    ensures { result ≡ directions * stations }
{
    DIRECTIONS * stations
}

impl LatticeNet {
    // Refused where the stations, a fee or the loss are beyond the limits.
    pub fn new(
        rows: usize,
        columns: usize,
        fees: LatticeFees,
        loss: u32,
    ) -> Result<LatticeNet, Refusal>
        ensures answer { result_err result ≡ lattice_refusal rows columns fees loss }
        ensures sound { is_ok result ≡ true → Sound (lattice rows columns fees loss) }
        ensures complete { Sound (lattice rows columns fees loss) → is_ok result ≡ true }
        ensures meaning { IfOk result (λ n. lattice n.rows n.columns n.fees n.loss ≡ lattice rows columns fees loss) }
    {
        if lattice_fits(rows, columns, fees, loss) {
            Ok(LatticeNet {
                rows,
                columns,
                fees,
                loss,
            })
        } else {
            Err(Refusal::NetLimit)
        }
    }

    // The station in a row and a column.
    fn station(&self, row: usize, column: usize) -> usize
        requires row { row < self.now.rows }
        requires column { column < self.now.columns }
        ensures { result ≡ station_at self.now.columns row column }
    {
        row * self.columns + column
    }

    // The station beside station s in a direction.
    fn beside(&self, s: usize, d: Direction) -> Option<usize>
        requires { s < self.now.rows * self.now.columns }
        ensures { result ≡ neighbour self.now.rows self.now.columns s d }
    {
        let row = s / self.columns;
        let column = s % self.columns;
        match d {
            Direction::East if column + 1 < self.columns => Some(self.station(row, column + 1)),
            Direction::South if row + 1 < self.rows => Some(self.station(row + 1, column)),
            Direction::West if 0 < column => Some(self.station(row, column - 1)),
            Direction::North if 0 < row => Some(self.station(row - 1, column)),
            _ => None,
        }
    }
}

impl Net for LatticeNet {
    ghost meant = { λ n. lattice n.rows n.columns n.fees n.loss };

    ghost sound = { λ n. sound_lattice n.rows n.columns n.fees n.loss n.limits };

    fn stations(&self) -> usize {
        self.rows * self.columns
    }

    fn line_count(&self) -> usize {
        lines_from(self.stations())
    }

    fn line(&self, k: usize) -> Option<Line> {
        if k >= self.line_count() {
            return None;
        }
        let from = k / DIRECTIONS;
        let d = Direction::from(k % DIRECTIONS);
        let beside = self.beside(from, d);
        Some(Line {
            from: from as u32,
            to: beside.unwrap_or(from) as u32,
            fee: self.fees.fee(d),
            loss: self.loss,
            open: beside.is_some(),
        })
    }
}

// Nets: a count of stations and a list of lines, behind one trait, and the edits of an editable net.
#![tactic(auto)]

mod judging;
mod lattice;
mod limits;
mod line;
mod lines;
mod list;
mod net;
mod patched;
mod refusal;

pub use lattice::{LatticeFees, LatticeNet};
pub use limits::{MAX_FEE, MAX_LINES, MAX_LOSS, MAX_STATIONS};
pub use line::{BLANK_LINE, Line};
pub use lines::Lines;
pub use list::ListNet;
pub use net::{EditableNet, Net};
pub use patched::{Change, PatchTable, PatchedNet};
pub use refusal::Refusal;

// Sheets: the rows of every station, what makes them right for a net and a gateway, and the check that tells.
#![tactic(auto)]

mod admitted;
mod checking;
mod comparing;
mod row;

pub use checking::check;
pub use row::Row;

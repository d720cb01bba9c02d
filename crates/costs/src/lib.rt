// Cost kinds and bandings: how costs compare and join, and how they fall into levels.
#![tactic(auto)]

mod amount;
mod banding;
mod fees;
mod kind;
mod line;
mod losses;
mod whole;
mod width;

pub use amount::Amount;
pub use banding::Banding;
pub use fees::Fees;
pub use kind::CostKind;
pub use line::line_cost;
pub use losses::Losses;
pub use whole::Whole;
pub use width::Width;

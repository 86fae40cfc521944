//! Closings of a branch whose rows have no solution.

mod cited;
pub mod end;
mod equations;
mod positions;
mod rewriting;

//! How rows without a solution close a branch.

pub mod chosen;
pub mod laws;
pub mod multiples;

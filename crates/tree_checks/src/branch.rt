//! Decides whether a branch is open with values: it is saturated, and the values satisfy its rows, whole ones for
//! numbers.

pub mod open;
pub mod reached;

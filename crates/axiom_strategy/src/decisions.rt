//! Decisions that are due on a branch: whether two indexes of aliasing memories or vectors are equal, and which of two
//! numbers is the greater.

pub mod cuts;
pub mod denials;
pub mod equal_orders;
mod numbers;
pub mod orders;
pub mod positions;

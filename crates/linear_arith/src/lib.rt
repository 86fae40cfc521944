//! Linear constraints over 128-bit numbers, and their Fourier-Motzkin elimination.
#![tactic(auto)]

mod bounds;
pub mod combination;
mod elimination;
pub mod numbers;
pub mod packed;
pub mod reduction;
pub mod rows;
mod solver;
mod stop;
pub mod substitution;
pub mod sums;
mod system;

pub use solver::solve;

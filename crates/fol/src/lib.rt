//! First-order formulas over Move's values, and their truth.
#![tactic(auto)]

pub mod copy;
pub mod depth;
pub mod formula;
pub mod laws;
pub mod make;
pub mod operators;
pub mod same;
pub mod shapes;

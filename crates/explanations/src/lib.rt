//! Explanations: derivations of equations from the entries of a branch.
#![tactic(auto)]

pub mod chain;
pub mod derived;
pub mod frame;
pub mod laws;

//! The formulas of sums and clauses, and the premises of the verification conditions of a function.
#![tactic(auto)]

pub mod premises;
pub mod translation;

//! Checks the steps of a proof trace one by one.
#![tactic(auto)]

pub mod applications;
pub mod axiom_rules;
pub mod closings;
pub mod decisions;
pub mod elimination;
pub mod met_rows;
pub mod naturals;
pub mod values;

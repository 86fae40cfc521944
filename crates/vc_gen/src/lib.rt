//! Verification conditions: formulas that are valid exactly if a function keeps its contract.
#![tactic(auto)]

pub mod condition;
pub mod conditions;

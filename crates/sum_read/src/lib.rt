//! Reads sums, clauses and functions of the supported form from source trees.
#![tactic(auto)]

pub mod clause;
pub mod condition;
pub mod fault;
pub mod function;
pub mod spec_sum;
pub mod sum;
pub mod term;

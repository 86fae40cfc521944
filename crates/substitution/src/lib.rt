//! Substitution of terms and types in formulas, instances, and wide numerals.
#![tactic(auto)]

pub mod binders;
pub mod free;
pub mod instance;
pub mod instances;
pub mod wide_numerals;

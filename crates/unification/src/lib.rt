//! Type variables and their unification, and the solution with defaults.
#![tactic(auto)]

pub mod pairs;
pub mod ranks;
pub mod solution;
pub mod type_variables;
pub mod unify;
mod walk;

//! Solves typing constraints: of bodies of code, and of clauses and spec functions.
#![tactic(auto)]

pub mod code_systems;
pub mod constraints;
pub mod emit;
pub mod equation;
pub mod fields;
pub mod forms;
pub mod kinds;
pub mod plain;
pub mod read;
pub mod returned;
pub mod spec_systems;
pub mod step;
pub mod tuples;
pub mod walk;
pub mod within;
pub mod words;

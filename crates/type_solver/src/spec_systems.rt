//! The systems of clauses and spec functions, read step by step.

pub mod steps;
pub mod systems;

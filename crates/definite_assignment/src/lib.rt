//! Definite assignment: the states of locals at the points of a body, and in a whole program.
#![tactic(auto)]

pub mod effects;
pub mod forms;
pub mod outcome;
pub mod pass;
pub mod points;
pub mod rules;
pub mod sets;
pub mod shown;
pub mod summary;
pub mod whole_program;

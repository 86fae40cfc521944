//! The systems of functions and constants, read step by step.

pub mod counts;
pub mod nodes;
pub mod systems;

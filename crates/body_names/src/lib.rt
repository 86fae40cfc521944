//! Resolution of names in bodies: in code and in spec expressions.
#![tactic(auto)]

pub mod code;
mod first_spans;
pub mod spec;
mod words;

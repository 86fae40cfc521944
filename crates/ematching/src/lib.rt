//! E-matching: the terms of a branch that match the triggers of its quantified entries.
#![tactic(auto)]

mod fits;
mod found;
pub mod heads;
pub mod instances;
mod joins;
pub mod laws;
pub mod matches;
mod node;
pub mod quantified;
mod rows;
mod types;
mod walk;

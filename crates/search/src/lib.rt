//! Proof traces, and the search for a tableau, driven by deciders.
#![tactic(auto)]

mod applications;
mod budget;
pub mod deciders;
pub mod decisions;
pub mod end;
pub mod search;
pub mod trees;
pub mod values;

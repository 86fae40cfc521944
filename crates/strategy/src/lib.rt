//! The strategy of the search: which rule to apply next on a branch, and when a branch is saturated.
#![tactic(auto)]

pub mod deciders;
pub mod due;
pub mod early;
mod following;
pub mod ranks;
mod rows;
pub mod saturation;

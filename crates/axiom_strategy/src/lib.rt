//! Which axiom instances and which decisions are due on a branch.
#![tactic(auto)]

pub mod askers;
pub mod beside;
pub mod decisions;
pub mod due;
mod keyed;
pub mod known;
pub mod laws;
pub mod listing;
pub mod near;
pub mod next;
pub mod ranges;
pub mod reads;
pub mod typings;
pub mod vectors;

//! Detection of cyclic declarations: finds the first declaration that leads back to itself.
#![tactic(auto)]

mod code;
mod declarations;
pub mod edges;
pub mod first;
mod graph;
mod kinds;
mod members;
mod specifications;
mod types;

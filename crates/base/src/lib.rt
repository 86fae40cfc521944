//! The base of the verifier: names, spans, types, lists, the counter of search steps, the names of rules and
//! conditions, lists by key, and the strongly connected components of a graph.
#![tactic(auto)]

pub mod condition;
pub mod cycles;
pub mod keyed_lists;
pub mod lists;
pub mod marked_cycles;
pub mod memory;
pub mod meter;
pub mod name;
pub mod rule;
pub mod same;
pub mod span;
pub mod steps;
pub mod types;

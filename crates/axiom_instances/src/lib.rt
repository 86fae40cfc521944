//! Axioms over a pool: the instances that the terms, types and reads of a branch trigger.
#![tactic(auto)]

pub mod field_types;
pub mod instances;
pub mod laws;
mod nodes;
mod pairs;
pub mod reading;
pub mod struct_axioms;
pub mod structs;
mod template;
mod terms;
pub mod triggered;
mod types;
pub mod vector_axioms;

//! The instances of axioms that field updates and struct types trigger; all that a term triggers, and all that a type
//! and a term trigger together.

pub mod field_typed;
mod nodes;
mod pack_typed;
pub mod packed;
pub mod set_fields;
pub mod terms;
pub mod types;

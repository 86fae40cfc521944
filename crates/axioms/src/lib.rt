//! The axioms of the values of terms: of memories, vectors, structs, numbers, bits and types. Each axiom is a schema
//! over terms, types and numbers; a formula that is obtained by choosing these is an instance. `specs/` has the
//! schemas, one on a line.
#![tactic(auto)]

pub mod alternatives;
pub mod axiom;
pub mod equations;
pub mod equivalences;
pub mod exceptions;
pub mod facts;
pub mod fields;
pub mod forms;
pub mod instance;
pub mod rules;
pub mod structs;

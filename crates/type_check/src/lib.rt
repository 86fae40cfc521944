//! Checks a whole program by the rules on types and locals, and returns the typed program.
#![tactic(auto)]

pub mod clauses;
pub mod code;
pub mod schemas;
pub mod spec;
pub mod typed_program;
pub mod typing;

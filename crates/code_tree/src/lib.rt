//! Code as a few forms round the operations of a language, and the passes over it.
#![tactic(auto)]

pub mod code;
pub mod fault;
pub mod free_op;
pub mod limit;
pub mod pass;
pub mod ref_op;

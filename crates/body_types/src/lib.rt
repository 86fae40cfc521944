//! Types of one body: of a function, a constant, a clause or a spec function.
#![tactic(auto)]

pub mod barred_uses;
pub mod code;
pub mod constants;
pub mod spec;

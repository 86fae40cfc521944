//! Parsers of expressions: those of Move code and those of specs.
#![tactic(auto)]

pub mod block;
pub mod control;
pub mod expression;
pub mod lists;
pub mod spec;
pub mod term;

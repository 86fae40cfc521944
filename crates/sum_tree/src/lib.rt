//! The programs that are supported so far: modules of functions that are sums of u64 values, with the clauses of their
//! spec blocks.
#![tactic(auto)]

pub mod clause;
pub mod function;
pub mod sum;

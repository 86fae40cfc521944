//! Reads modules of functions over sums from source trees, with the clauses of the functions' spec blocks, or finds the
//! first member that is not of the supported form.
#![tactic(auto)]

pub mod fault;
pub mod join;
pub mod member;
pub mod module;
pub mod parameters;
pub mod scope;
pub mod seen;
pub mod sums;

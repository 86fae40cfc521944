//! Decides whether a bound split on a whole number may be applied on a branch, given an elimination of the branch's
//! rows and the values chosen after it.

pub mod bound;
mod chosen;
mod firsts;
pub mod laws;

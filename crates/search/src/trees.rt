//! Search trees while they are extended: the proof trace, the current branch and the pending ones.

pub mod application;
pub mod laws;
pub mod tree;

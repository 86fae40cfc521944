//! The terms of a branch, and its aliasing (overlapping) memories and vectors.

pub mod groups;
mod joins;
pub mod terms;

//! Closings of a branch by a clash up to congruence.

pub mod closing;
pub(crate) mod depth;
mod entries;
pub mod history;
mod linked;

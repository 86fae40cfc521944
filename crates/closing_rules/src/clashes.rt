//! Clashes of a branch up to congruence.

pub mod clash;
pub mod forms;
mod index;
pub mod literal;
pub mod next;

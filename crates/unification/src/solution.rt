//! The solution with defaults, from what slots know of the type variables.

pub mod choice;
pub mod forced;
mod given;
mod numbers;
mod pooled;
mod roots;

//! The differences between a comparison and the same comparison with the chosen term for each unknown of its sides.

pub mod choice;
pub mod entry;
mod shape;
mod sums;
mod walk;

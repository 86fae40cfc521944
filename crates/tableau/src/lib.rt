//! The branch of a tableau over a pool of terms: its entries, the rules that extend it, its Skolem names, and its
//! aliasing (overlapping) memories.
#![tactic(auto)]

pub mod aliasing;
pub mod branch;
pub mod entry;
pub mod laws;
pub mod log;
mod marking;
pub mod names;
pub mod rules;
pub mod state;
pub mod whole_numbers;

//! The instances of the extensionality axiom of vectors that pairs of vectors trigger when an entry states that they
//! differ.

pub mod fresh;
mod nodes;
pub mod vectors;

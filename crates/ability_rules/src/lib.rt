//! Required abilities, listed acquires, and polymorphic recursion.
#![tactic(auto)]

pub mod acquires;
pub mod polymorphic_recursion;
pub mod required;

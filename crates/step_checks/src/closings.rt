//! Decides whether a closing, given by number, closes a branch: each step of its explanation is valid and adds a new
//! formula, the explanation does not exceed the maximal length of a branch, and the closing rule applies.

mod adding;
pub mod closing;
mod equations;
pub mod inside;
mod links;

//! Tokens: the one list of tokens that spells a file, and the weight of its nesting.
#![tactic(auto)]

mod number;
mod piece;
pub mod scanner;
pub mod token;
pub mod weight;

//! The clauses of a program in their blocks: which typing rules each breaks, and which schemas it includes at which
//! types.

mod arguments;
pub mod instance;
pub mod judged;
pub mod owner;

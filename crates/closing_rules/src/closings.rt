//! Rule applications that close a branch.

pub mod closing;
pub mod literal;
pub mod rewriting;
pub mod rows;

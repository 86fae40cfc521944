//! Readers of spec blocks, clause by clause, and the spec blocks and spec expressions that tokens denote.

pub mod block;
pub mod clause;
mod conditions;
pub mod denoted;
pub mod denoted_block;
mod includes;
mod pragmas;
pub mod spec_block;
mod targets;
pub mod words;

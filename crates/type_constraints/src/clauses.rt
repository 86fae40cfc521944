//! The typing constraints of clauses and spec functions.

pub mod block;
pub mod clause;
pub mod function;

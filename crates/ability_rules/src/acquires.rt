//! Decides whether functions list in `acquires` the structs that they move out of storage, or borrow there.

mod callee;
pub mod function;
mod listed;
mod look;
mod node;

//! The typing constraints of nodes of code, of spec expressions and of clauses.
#![tactic(auto)]

pub mod builtin;
pub mod clauses;
pub mod code;
pub mod constraint;
pub mod numbers;
pub mod spec;
pub mod typed_nodes;

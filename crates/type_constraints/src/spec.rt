//! The typing constraints of each node of a spec expression.

pub mod arguments;
pub mod call;
pub mod inner;
pub mod leaf;
pub mod names;
pub mod node;
pub mod quantified;
pub mod setting;
pub mod structs;
pub mod variables;

//! The typing constraints of each node of code.

pub mod arguments;
pub mod arity;
pub mod body;
pub mod breaks;
pub mod call;
pub mod inner;
pub mod leaf;
pub mod loops;
pub mod many;
pub mod node;
pub mod setting;
pub mod signature;
pub mod structs;
pub mod way;
pub mod whole;
pub mod written;

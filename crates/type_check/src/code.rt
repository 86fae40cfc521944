//! The typing rules that the functions, constants and structs of a program break, each with the first span.

pub mod faults;
pub mod functions;
mod judged;
pub mod law;
pub mod typed;
pub mod variables;

//! The first spans of specifications that break a typing rule.

pub mod first;
mod functions;
mod loops;
mod roots;
mod spans;

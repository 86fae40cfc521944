//! The bound that the values of a branch's rows require: on the first number whose value is not whole.

pub mod bounds;
pub mod laws;
mod numbers;

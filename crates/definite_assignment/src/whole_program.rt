//! The rules on locals, and the states of locals, over all functions of a typed program.

pub mod flow;
pub mod known;
mod locals;
pub mod states;

//! Graphs over numbers, and the numbers that are on a cycle.

pub mod components;
pub mod graph;
pub mod on_cycle;
mod roots;
mod walk;

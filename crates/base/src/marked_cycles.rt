//! Numbers that are on a cycle with a marked edge.

pub mod edge;
mod marks;
pub mod on_cycle;

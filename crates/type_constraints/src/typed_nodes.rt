//! Facts about the nodes of typed functions.

pub mod first;
pub mod law;

//! Typing of a function or a constant: whether typings exist, which is the solution with defaults, and whether number
//! literals fit it.

pub mod dropped;
pub mod fitting;
pub mod plain;
pub mod runs;
pub mod typable;
pub mod typing;

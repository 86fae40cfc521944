//! Typing of a clause or a spec function: whether typings exist, and the type of each type variable.

pub mod terms;
pub mod typing;

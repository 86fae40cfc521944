//! The values of constants, by runs of their initialisers.

pub mod initialiser;
pub mod integer;
mod operator;

//! The required abilities, for solved types.

mod argument;
pub mod body;
pub mod declared;
pub mod entry;
pub mod function;
pub mod locals;
mod required;
mod taken;

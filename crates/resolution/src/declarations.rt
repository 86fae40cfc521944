//! Resolution of structs, constants and functions of Move, and of `use`s and friends.

pub mod constants;
pub mod functions;
pub mod imports;
pub mod parameters;
pub mod structs;

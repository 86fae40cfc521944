//! Resolved programs: declarations, bodies as arenas of nodes, the order of declarations in files, the numbers of fields, and the abilities of types.
#![tactic(auto)]

pub mod abilities;
pub mod arena;
pub mod boxed;
pub mod clause;
pub mod code;
pub mod declaration;
pub mod field_numbers;
pub mod home;
pub mod operator;
pub mod order;
pub mod program;
pub mod sequence;
pub mod spec;
pub mod table;

//! The types of the fields of struct types, by number in a pool.

pub mod fields;
pub mod put;

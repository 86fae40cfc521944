//! Decides whether values satisfy rows: exactly, whatever the size of intermediate numbers.

mod parts;
mod rest;
pub mod rows;

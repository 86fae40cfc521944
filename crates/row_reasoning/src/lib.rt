//! The linear constraints of a branch, the values that satisfy them, and how they close it.
#![tactic(auto)]

pub mod class_names;
pub mod closings;
mod comparison;
pub mod differences;
mod entry;
pub mod given;
mod memo;
pub mod rows;
mod shape;
mod sum;
pub mod values;
mod walk;

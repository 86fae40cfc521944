//! Substitution of terms for variables in formulas of a pool.

pub mod laws;
pub mod put;

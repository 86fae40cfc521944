//! Substitution of terms for variables, with the results built in memory.

mod replaced;
pub mod substitute;
mod unused;

//! Explanations of the equality of two terms: the equation of two terms is derived along edges of the proof forest.

pub mod alike;
pub mod bound;
pub mod derive;
pub mod difference;
pub mod laws;
pub mod plan;
pub mod replacing;
pub mod route;

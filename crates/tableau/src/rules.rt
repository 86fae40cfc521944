//! The alpha and beta rules: the parts (conjuncts) of conjunctions, and the cases of disjunctions.

pub mod compounds;
pub mod formulas;
pub mod laws;
pub mod parts;
pub mod split;
pub mod stands;

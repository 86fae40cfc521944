//! The gamma rule: due instances of the quantified formulas of a branch.

pub mod due;
mod made;
pub mod quantifiers;
mod said;

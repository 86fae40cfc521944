//! The operators of spec expressions.

use crate::operator::BinaryOperator;

/// An operator between two spec expressions.
#[derive(Clone, Copy, Debug, PartialEq, Eq)]
pub enum SpecOperator {
    /// `<==>`
    Equivalent,
    /// `==>`
    Implies,
    /// `..`
    Range,
    /// An operator of Move.
    Common(BinaryOperator),
}

/// A quantifier.
#[derive(Clone, Copy, Debug, PartialEq, Eq)]
pub enum Quantifier {
    ForAll,
    Exists,
}

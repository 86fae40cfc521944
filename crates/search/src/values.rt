//! The values of an open branch.

use linear_arith::rows::Fractions;

/// Values that satisfy the rows of a branch, with the classes of the unknowns.
#[derive(Drop)]
pub struct OpenValues {
    /// The representative of the class of each term of the branch, by the term's number.
    pub names: Vec<usize>,
    /// The representatives of the classes in the rows: unknown k is the k-th class.
    pub classes: Vec<usize>,
    /// The values of the unknowns.
    pub values: Fractions,
}

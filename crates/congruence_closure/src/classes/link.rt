//! Equations, and edges of the proof forest.

/// Two numbers to be joined.
#[derive(Clone, Copy, Debug, PartialEq, Eq)]
pub struct Equation {
    pub left: usize,
    pub right: usize,
}

/// The justification of an edge.
#[derive(Clone, Copy, Debug, PartialEq, Eq)]
pub enum Why {
    /// They are the sides of the equation with this number.
    Given(usize),
    /// They have equal head symbols, and parts of the same classes (congruence).
    Alike,
}

/// An edge: two numbers of one class, with a justification.
#[derive(Clone, Copy, Debug, PartialEq, Eq)]
pub struct Link {
    pub left: usize,
    pub right: usize,
    pub why: Why,
}

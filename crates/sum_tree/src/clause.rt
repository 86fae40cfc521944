//! Clauses over sums.

use crate::sum::Sum;

/// The relation in a comparison of two sums.
#[derive(Clone, Copy, Debug, PartialEq, Eq)]
pub enum Comparison {
    Equal,
    Less,
    Greater,
    LessEqual,
    GreaterEqual,
}

/// The condition of a clause.
#[derive(Drop)]
pub enum Condition {
    True,
    False,
    Compares(Sum, Comparison, Sum),
}

/// The kind of a clause.
#[derive(Clone, Copy, Debug, PartialEq, Eq)]
pub enum ClauseKind {
    /// The condition holds where the function is called.
    Requires,
    /// The condition holds where the function returns.
    Ensures,
    /// The function aborts exactly where one of the conditions of this kind holds.
    AbortsIf,
}

/// A clause of a spec.
pub struct SumClause {
    pub kind: ClauseKind,
    pub condition: Condition,
    /// The index of its first byte, counted from 0 in its file.
    pub start: u32,
}

// A separate impl, so that each drop is a call and not the cases of all forms below it.
impl Drop for SumClause {
    fn drop(self) {
        let SumClause {
            kind: _,
            condition,
            start: _,
        } = self;
        drop(condition);
    }
}

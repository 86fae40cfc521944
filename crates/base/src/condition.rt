//! The kinds and keys of verification conditions.

/// What a verification condition claims of its function.
#[derive(Clone, Copy, Debug, PartialEq, Eq)]
pub enum ConditionKind {
    /// The clause holds at each return.
    Ensures,
    /// The clause holds at no return.
    AbortsIf,
    /// Where the function aborts, one of its `aborts_if` clauses holds.
    Aborts,
}

/// What distinguishes a condition from the others of its function. Positions are bytes, counted from 0 in the file.
#[derive(Clone, Copy, Debug, PartialEq, Eq)]
pub struct ConditionKey {
    pub kind: ConditionKind,
    /// The start of the clause, or for `Aborts` of the function.
    pub start: u32,
    /// The start of the check, where it lies outside the clause.
    pub check: Option<u32>,
}

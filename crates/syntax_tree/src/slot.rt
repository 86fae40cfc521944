//! The kinds of spec blocks.

/// What a spec block specifies, which determines its form and the clauses that are allowed in it.
#[derive(Clone, Copy, Debug, PartialEq, Eq)]
pub enum Slot {
    Function,
    Struct,
    Module,
    Schema,
    /// A spec function.
    SpecFunction,
    /// A loop of Move code.
    Loop,
}

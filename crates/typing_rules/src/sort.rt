//! Sorts of types, and the type constructors that take one type.

/// The kinds of references (The Move Book, "References").
#[derive(Clone, Copy, Debug, PartialEq, Eq)]
pub enum Reference {
    Shared,
    Mutable,
}

/// A type constructor that takes one type.
#[derive(Clone, Copy, Debug, PartialEq, Eq)]
pub enum Wrap {
    Vector,
    Shared,
    Mutable,
}

/// A condition that a rule puts on a type by itself.
#[derive(Clone, Copy, Debug, PartialEq, Eq)]
pub enum Sort {
    /// Not a tuple.
    Single,
    /// Neither a tuple nor a reference.
    Value,
    /// An integer type of Move.
    Integer,
}

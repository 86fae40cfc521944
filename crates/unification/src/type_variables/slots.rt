//! What is known of the types of type variables.

use base::types::{StructId, TypeTerm};

/// A condition on a type by itself: each implies those before it.
#[derive(Clone, Copy, Debug, PartialEq, Eq)]
pub enum Sort {
    Any,
    /// Not a tuple.
    Single,
    /// Neither a reference nor a tuple.
    Value,
    /// An integer type with a width.
    Integer,
}

/// A type constructor of one type: a vector of it, or a reference to it.
#[derive(Clone, Copy, Debug, PartialEq, Eq)]
pub enum Wrap {
    Vector,
    Shared,
    Mutable,
}

/// A type constructor of a list of types: a struct, or a tuple.
#[derive(Clone, Copy)]
pub enum Group<'a> {
    Struct(&'a StructId),
    Tuple,
}

/// A type: that of a type variable, a written one, one made of that of a variable, or one made of those of so many
/// consecutive variables, from the first on.
#[derive(Clone, Copy)]
pub enum Term<'a> {
    Variable(usize),
    Closed(&'a TypeTerm),
    Made(Wrap, usize),
    Grouped(Group<'a>, usize, usize),
}

/// What is known of a type variable: a sort, or its type.
#[derive(Clone, Copy)]
pub enum Slot<'a> {
    Open(Sort),
    Bound(Term<'a>),
}

/// An equation to solve: a type variable has the type of a term.
#[derive(Clone, Copy)]
pub struct Ask<'a> {
    pub variable: usize,
    pub term: Term<'a>,
}

//! Settings of spec expressions.

use base::types::TypeTerm;
use program::arena::Node;
use program::declaration::{Function, Schema, SpecFunction, Struct};
use program::program::Program;
use program::spec::{SpecBinary, SpecBody, SpecLeaf, SpecMany, SpecUnary};

/// A node of a spec expression.
pub type SpecNode = Node<SpecLeaf, SpecUnary, SpecBinary, SpecMany>;

/// The owner of specifications: it gives the names that they use.
#[derive(Clone, Copy)]
pub enum Owner<'a> {
    Function(&'a Function),
    Struct(&'a Struct),
    Module,
    /// A loop: the result type of its function, and the types of the function's locals by the function's typing.
    Loop(&'a TypeTerm, &'a [TypeTerm]),
    /// A schema, and the types substituted for its type parameters.
    Schema(&'a Schema, &'a [TypeTerm]),
    SpecFunction(&'a SpecFunction),
}

/// The type of a `let`, which is of the state at the exit if `is_post` is true.
#[derive(Drop)]
pub struct LetType {
    pub is_post: bool,
    pub of: TypeTerm,
}

/// The names that specifications use: those of their owner, and `let`s by the numbers of their clauses. A clause that
/// is no `let`, or has no type, has none here. Loops and spec functions have no `let`s.
#[derive(Clone, Copy)]
pub struct Names<'a> {
    pub owner: Owner<'a>,
    pub lets: &'a [Option<LetType>],
}

/// What else may occur in an expression: `old`, the results, and names of the state at the exit.
#[derive(Clone, Copy)]
pub struct Allowed {
    pub old: bool,
    pub results: bool,
    pub exits: bool,
}

/// The setting of a spec expression: the nodes that it is one of, the names in scope, what may occur in it, and the
/// number of variables that the quantifiers among the nodes bind.
#[derive(Clone, Copy)]
pub struct SpecSetting<'a> {
    pub program: &'a Program,
    pub body: &'a SpecBody,
    pub names: Names<'a>,
    pub allowed: Allowed,
    pub variables: usize,
}

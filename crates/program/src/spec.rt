//! Spec expressions with their names resolved.

use crate::arena::Arena;
use crate::boxed::Boxed;
use crate::code::{NamedFields, Number};
use crate::operator::{Quantifier, SpecBuiltin, SpecOperator};
use crate::program::ConstantId;
use crate::sequence::Sequence;
use base::name::Name;
use base::types::{FunctionId, TypeList, TypeTerm, Width};

/// The meaning of a name in a spec expression, by its number among the names of its kind.
#[derive(Clone, Copy, Debug, PartialEq, Eq)]
pub enum SpecName {
    /// A parameter of the function or of the spec function.
    Parameter(usize),
    /// A local of the function, in an invariant of one of its loops; parameters are the first locals.
    Local(usize),
    /// A result of the function: `result` and `result_1` have the number 0.
    Result(usize),
    /// A `let` of the same spec, by the number of its clause.
    Let(usize),
    /// A variable of the schema.
    Variable(usize),
    /// A field of the struct that an invariant specifies.
    Field(usize),
    /// A variable of a quantifier.
    Quantified(usize),
}

/// The nodes without children.
#[derive(Drop)]
pub enum SpecLeaf {
    Number(Number),
    Truth(bool),
    Address(u128),
    Name(SpecName),
    Constant(Boxed<ConstantId>),
    /// The greatest value of an integer type, such as `MAX_U64`.
    Max(Width),
}

/// The nodes with one child.
#[derive(Drop)]
pub enum SpecUnary {
    Not,
    /// A field, by its name.
    Field(Name),
}

/// The nodes with two children.
#[derive(Clone, Copy, Debug, PartialEq, Eq)]
pub enum SpecBinary {
    Operator(SpecOperator),
    /// A vector, and an index.
    Index,
}

/// The callee of a call.
#[derive(Drop)]
pub enum SpecCallee {
    Function(FunctionId),
    Builtin(SpecBuiltin),
}

/// The domain of a quantified variable: the values of a type, or a range, which is a child.
#[derive(Drop)]
pub enum Domain {
    Of(TypeTerm),
    In,
}

/// A quantified variable, by its number, and its domain.
#[derive(Drop)]
pub struct Bind {
    pub variable: usize,
    pub domain: Domain,
}

/// A callee, with the type arguments that are written; there are none where they are omitted.
#[derive(Drop)]
pub struct SpecCall {
    pub callee: SpecCallee,
    pub types: TypeList,
}

/// The nodes with a list of children.
#[derive(Drop)]
pub enum SpecMany {
    /// A call, whose children are its arguments.
    Call(Boxed<SpecCall>),
    /// A struct, whose children are the values of the named fields.
    Pack(Boxed<NamedFields>),
    /// A quantifier, whose children are the ranges of its variables, the terms of its triggers, with the number of
    /// terms of each, and its body.
    Quantified {
        quantifier: Quantifier,
        binds: Sequence<Bind>,
        triggers: Sequence<usize>,
    },
}

/// Spec expressions. Their nodes are in the order of their last tokens.
pub type SpecBody = Arena<SpecLeaf, SpecUnary, SpecBinary, SpecMany>;

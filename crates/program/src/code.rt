//! Bodies: expressions and patterns of Move with their names resolved.

use crate::arena::Arena;
use crate::boxed::Boxed;
use crate::operator::{BinaryOperator, StorageOperation, VectorFunction};
use crate::program::ConstantId;
use crate::sequence::Sequence;
use base::name::Name;
use base::types::{FunctionId, StructId, TypeList, TypeTerm, Width};

/// A number in a source, below 2^128, with its suffix.
#[derive(Clone, Copy, Debug, PartialEq, Eq)]
pub struct Number {
    pub value: u128,
    pub width: Option<Width>,
}

/// How the value of a local is used: as its type determines, or by `move` or `copy`.
#[derive(Clone, Copy, Debug, PartialEq, Eq)]
pub enum LocalUse {
    Plain,
    Move,
    Copy,
}

/// The nodes without children.
#[derive(Drop)]
pub enum CodeLeaf {
    Number(Number),
    Truth(bool),
    Address(u128),
    /// A local by its number, also where it is borrowed or assigned.
    Local(LocalUse, usize),
    Constant(Boxed<ConstantId>),
    /// `return` without a value
    Return,
    Break,
    Continue,
    /// A pattern that binds a local, by its number.
    Bind(usize),
    /// The pattern `_`.
    Ignore,
}

/// The nodes with one child.
#[derive(Drop)]
pub enum CodeUnary {
    Not,
    Dereference,
    Borrow,
    BorrowMutable,
    /// A field, by its name.
    Field(Name),
    Cast(Boxed<TypeTerm>),
    Return,
    Abort,
    Loop,
    /// An item of a block whose value is not used.
    Discard,
    /// `let` without a value, with the type that is written, if any.
    Declare(Option<Boxed<TypeTerm>>),
}

/// The nodes with two children.
#[derive(Drop)]
pub enum CodeBinary {
    Operator(BinaryOperator),
    /// An assignment: its target, and its new value.
    Assign,
    /// `if` without `else`
    If,
    /// A condition, and a body.
    While,
    /// A condition, and the code of the abort if it is false.
    Assert,
    /// `let` with a value, with the type that is written, if any.
    Let(Option<Boxed<TypeTerm>>),
}

/// The callee of a call.
#[derive(Drop)]
pub enum Callee {
    Function(FunctionId),
    Storage(StorageOperation),
    Vector(VectorFunction),
    /// `signer::address_of`
    AddressOf,
}

/// A callee, with the type arguments that are written; there are none where they are omitted.
#[derive(Drop)]
pub struct Call {
    pub callee: Callee,
    pub types: TypeList,
}

/// A struct with the names of fields, and the type arguments that are written; there are none where they are omitted.
#[derive(Drop)]
pub struct NamedFields {
    pub owner: StructId,
    pub types: TypeList,
    pub fields: Sequence<Name>,
}

/// The nodes with a list of children.
#[derive(Drop)]
pub enum CodeMany {
    /// A call, whose children are its arguments.
    Call(Boxed<Call>),
    /// A vector of its children, with the type arguments that are written.
    Vector(TypeList),
    /// A struct, whose children are the values of the named fields.
    Pack(Boxed<NamedFields>),
    /// A pattern for a struct, whose children are patterns for the named fields.
    Unpack(Boxed<NamedFields>),
    /// No or several expressions between parentheses.
    Tuple,
    /// Several patterns between parentheses.
    TuplePattern,
    /// A block, whose children are its items, and last its value if it has one.
    Block { has_value: bool },
}

/// A body. Its nodes are in the order of their last tokens, so the last node is the root.
pub type Body = Arena<CodeLeaf, CodeUnary, CodeBinary, CodeMany>;

//! Declarations. The span of each is that of its first token after its attributes.

use crate::clause::{Clause, LoopClause};
use crate::code::Body;
use crate::program::ModuleId;
use crate::sequence::Sequence;
use crate::spec::SpecBody;
use base::name::Name;
use base::span::Span;
use base::types::{StructId, TypeTerm};

/// Abilities of a type (The Move Book, "Abilities").
#[derive(Clone, Copy, Debug, PartialEq, Eq)]
pub struct AbilitySet {
    pub has_copy: bool,
    pub has_drop: bool,
    pub has_store: bool,
    pub has_key: bool,
}

/// A type parameter, with the abilities that its arguments must have. Only that of a struct may be phantom.
#[derive(Drop)]
pub struct TypeParameter {
    pub name: Name,
    pub abilities: AbilitySet,
    pub is_phantom: bool,
}

/// A name with its type: a parameter, a field, a variable of a schema.
#[derive(Drop)]
pub struct TypedName {
    pub name: Name,
    pub annotation: TypeTerm,
}

/// A module. Its declarations are in the tables of its program.
#[derive(Drop)]
pub struct Module {
    pub span: Span,
    pub friends: Sequence<ModuleId>,
    /// The clauses of its `spec module` blocks.
    pub clauses: Sequence<Clause>,
}

/// A struct.
#[derive(Drop)]
pub struct Struct {
    pub span: Span,
    pub type_parameters: Sequence<TypeParameter>,
    pub abilities: AbilitySet,
    pub fields: Sequence<TypedName>,
    pub clauses: Sequence<Clause>,
}

/// A constant.
#[derive(Drop)]
pub struct Constant {
    pub span: Span,
    pub annotation: TypeTerm,
    pub value: Body,
}

/// The visibility of a function: in its module, also in the friends of its module, or everywhere.
#[derive(Clone, Copy, Debug, PartialEq, Eq)]
pub enum Visibility {
    Private,
    Friend,
    Public,
}

/// The values of the pragmas of a function: its own, and those of its module that it does not set.
#[derive(Clone, Copy, Debug, PartialEq, Eq)]
pub struct Pragmas {
    pub verify: bool,
    pub is_opaque: bool,
    pub aborts_if_is_partial: bool,
    pub aborts_if_is_strict: bool,
}

/// A function. Its parameters are its first locals.
#[derive(Drop)]
pub struct Function {
    pub span: Span,
    pub visibility: Visibility,
    pub type_parameters: Sequence<TypeParameter>,
    pub parameters: Sequence<TypedName>,
    /// The empty tuple if no type is written.
    pub result: TypeTerm,
    pub acquires: Sequence<StructId>,
    /// The names of its locals, by number.
    pub locals: Sequence<Name>,
    pub body: Body,
    pub pragmas: Pragmas,
    pub clauses: Sequence<Clause>,
    /// The clauses of its loops, in source order.
    pub loop_clauses: Sequence<LoopClause>,
}

/// A spec function. The last node of its body is the root.
#[derive(Drop)]
pub struct SpecFunction {
    pub span: Span,
    pub type_parameters: Sequence<TypeParameter>,
    pub parameters: Sequence<TypedName>,
    pub result: TypeTerm,
    pub body: SpecBody,
}

/// A schema.
#[derive(Drop)]
pub struct Schema {
    pub span: Span,
    pub type_parameters: Sequence<TypeParameter>,
    pub variables: Sequence<TypedName>,
    pub clauses: Sequence<Clause>,
}

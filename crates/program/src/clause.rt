//! Clauses of specifications.

use crate::program::SchemaId;
use crate::sequence::Sequence;
use crate::spec::SpecBody;
use base::span::Span;
use base::types::TypeList;

/// The clauses that are a condition.
#[derive(Clone, Copy, Debug, PartialEq, Eq)]
pub enum ConditionKind {
    Requires,
    Ensures,
    AbortsIf,
    Invariant,
    /// `invariant update`
    UpdateInvariant,
}

/// The forms of a clause, with the indices of its expressions among its nodes.
#[derive(Drop)]
pub enum ClauseForm {
    Condition(ConditionKind, usize),
    /// Locations of global storage that may change.
    Modifies(Sequence<usize>),
    /// `let` or, where `is_post` is true, `let post`
    Let {
        is_post: bool,
        value: usize,
    },
    /// The clauses of a schema, with the values of its variables, in their order. Type arguments are those that are
    /// written; there are none where they are omitted.
    Include {
        schema: SchemaId,
        types: TypeList,
        given: Sequence<usize>,
    },
}

/// A clause, with the span of its first token and that of its spec block.
#[derive(Drop)]
pub struct Clause {
    pub block: Span,
    pub span: Span,
    pub form: ClauseForm,
    /// The nodes of its expressions.
    pub body: SpecBody,
}

/// A clause of the spec block of a loop, with the loop's index among the nodes of the body.
#[derive(Drop)]
pub struct LoopClause {
    pub at: usize,
    pub clause: Clause,
}

//! The forms of code. Code is an arena of nodes (`program::arena`): operations of a language, and a few forms round them.

use base::types::{FunctionId, TypeList};
use program::arena::{Arena, Node};
use program::sequence::Sequence;

/// How code is left before its end.
#[derive(Clone, Copy)]
pub enum Jump {
    Break,
    Continue,
    Return,
}

/// Where code stands when a pass may put more of it there: at the beginning or the end of a side of a branch, at the
/// end of a turn, or before it is left.
#[derive(Clone, Copy)]
pub enum Way {
    BranchStart,
    BranchEnd,
    TurnEnd,
    BeforeBreak,
    BeforeContinue,
    BeforeReturn,
}

/// A function with its type arguments.
#[derive(Drop)]
pub struct Instance {
    pub function: FunctionId,
    pub types: TypeList,
}

/// An operation, and the number of the point at which it stands.
#[derive(Drop)]
pub struct At<O> {
    pub point: u32,
    pub op: O,
}

/// The forms round one part.
#[derive(Clone, Copy)]
pub enum CodeUnary {
    /// Behind the part is the point with this number, at which nothing happens.
    Passes(u32, Way),
    /// Code is left with the items of the part.
    Leaves(Jump),
    /// Where the part is left so, code goes on here.
    Catches(Jump),
}

/// The forms round a list of parts.
#[derive(Drop)]
pub enum CodeMany<O> {
    /// All items of the parts, one behind another.
    Joins,
    /// An operation on the items of the parts.
    Does(At<O>),
}

/// A loop invariant: its number, the type arguments of the body in which it stands, and what it reads, at the head of the loop
/// and, for `old`, at entry.
#[derive(Drop)]
pub struct Invariant<R> {
    pub number: u32,
    pub types: TypeList,
    pub at_head: Sequence<R>,
    pub at_entry: Sequence<R>,
}

/// The head of a loop: the number of its point, and its invariants, on which runs do not depend. The first part of a
/// loop is its condition, the second one its body.
#[derive(Drop)]
pub struct LoopHead<R> {
    pub point: u32,
    pub invariants: Sequence<Invariant<R>>,
}

/// A node of code, with operations `O` and invariants that read `R`.
pub type CodeNode<O, R> = Node<At<O>, CodeUnary, LoopHead<R>, CodeMany<O>>;

/// Code with operations `O` and invariants that read `R`. Its last node is the whole.
pub type Code<O, R> = Arena<At<O>, CodeUnary, LoopHead<R>, CodeMany<O>>;

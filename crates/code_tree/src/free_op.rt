//! The operations of code without references. All that an operation of Move does stands in their terms, so nothing
//! that reads them knows operations of Move. A slot holds the value of a local, of a copy or of a memory.

use crate::code::{Code, Instance};
use fol::formula::{Formula, Term};
use program::sequence::Sequence;

/// A slot, and its new value.
#[derive(Drop)]
pub struct Setting {
    pub slot: u32,
    pub value: Term,
}

/// A guarded assignment. Variables stand for the items that it is given and, behind them, for the slots.
#[derive(Drop)]
pub struct Computation {
    /// Where it is false the code aborts, with the code if there is one.
    pub guard: Formula,
    pub abort_code: Option<Term>,
    /// The items that it gives.
    pub gives: Sequence<Term>,
    /// The slots that it sets, all at once.
    pub sets: Sequence<Setting>,
}

/// Any values for which the formula is true. Its variables stand for the items that it is given, the items that it gives,
/// the slots before and the slots behind it.
#[derive(Drop)]
pub struct Choice {
    /// How many items it gives.
    pub gives: u32,
    /// The slots that get values.
    pub changes: Sequence<bool>,
    pub formula: Formula,
}

/// A call of a function, whose code stands in place of it in the end.
#[derive(Drop)]
pub struct FreeCall {
    pub function: Instance,
    /// The values of the function's slots where it begins; variables as in a computation.
    pub enters: Sequence<Term>,
    /// What is set when it has returned. Variables stand for the items that it returns, its slots and the slots of the
    /// caller.
    pub sets: Sequence<Setting>,
}

#[derive(Drop)]
pub enum FreeOp {
    Computes(Computation),
    /// The check with this number, of the items and slots; the items are handed on.
    Checks(u32, Formula),
    Chooses(Choice),
    Calls(FreeCall),
    /// The place with this number, at which nothing happens; the items are handed on.
    Marks(u32),
}

/// Code without references, whose invariants read terms over slots.
pub type FreeCode = Code<FreeOp, Term>;

//! A depth-first traversal of type variables that gives each a rank after those that it refers to.

ghost use Rattle.std.specs.Prelude.{◌≡◌, ◌<◌, ◌≤◌, ◌+◌, ℕ, [], ◌∷◌, length, reverse, ◌++◌, slice_index, slice_set, IfOk, OnOk};
ghost use Rattle.unification.specs.Slots.{Typing, Meets, Fits, slot_at};
ghost use Rattle.unification.specs.Ranked.{rank_at};
ghost use Rattle.unification.specs.Walking.{first_part, part_count, IsWalk, IsOnWay, GoesOn, EndsWell};

use crate::type_variables::slots::{Slot, Term};
use std::alloc::{AllocError, Global};

/// So many consecutive type variables, from the first on.
#[derive(Clone, Copy)]
struct Parts {
    first: usize,
    count: usize,
}

/// The state of the traversal: the ranks, from 1 on, where 0 is none; the type variables in the order of their ranks;
/// how many parts of each are known to have ranks; and the path, each of whose variables refers to the next.
#[derive(Drop)]
pub(crate) struct Walk {
    pub(crate) ranks: Vec<usize>,
    pub(crate) order: Vec<usize>,
    pub(crate) seen: Vec<usize>,
    pub(crate) way: Vec<usize>,
}

fn term_parts<'a>(term: Term<'a>) -> Parts
    ensures first { result.first ≡ first_part (Slot.Bound term.entry) }
    ensures count { result.count ≡ part_count (Slot.Bound term.entry) }
{
    match term {
        Term::Variable(variable) => Parts {
            first: variable,
            count: 1,
        },
        Term::Closed(_) => Parts { first: 0, count: 0 },
        Term::Made(_, variable) => Parts {
            first: variable,
            count: 1,
        },
        Term::Grouped(_, first, count) => Parts { first, count },
    }
}

/// The type variables that a slot refers to.
fn slot_parts<'a>(slot: Slot<'a>) -> Parts
    ensures first { result.first ≡ first_part slot.entry }
    ensures count { result.count ≡ part_count slot.entry }
{
    match slot {
        Slot::Open(_) => Parts { first: 0, count: 0 },
        Slot::Bound(term) => term_parts(term),
    }
}

/// How many of the type variables have ranks, up to the first one without a rank, where so many are known to have them.
fn ranked_parts(ranks: &[usize], parts: Parts, known: usize) -> usize
    requires within { parts.first + parts.count ≤ length ranks.now }
    requires known { known ≤ parts.count }
    ensures most { result ≤ parts.count }
    ensures ranked { (i : ℕ) → known ≤ i → i < result → 0 < rank_at ranks.now (parts.first + i) }
    ensures next { result < parts.count → rank_at ranks.now (parts.first + result) ≡ 0 }
{
    for i in known..parts.count {
        if ranks[parts.first + i] == 0 {
            return i;
        }
    }
    parts.count
}

impl Walk {
    /// Gives the next rank to a type variable of which all parts have ranks.
    fn settle(&mut self, variable: usize) -> Result<(), AllocError>
        requires { variable < length self.old.ranks.items }
        ensures ranks { OnOk result (self.new.ranks.items ≡ slice_set self.old.ranks.items variable (length self.old.order.items + 1)) }
        ensures order { OnOk result (self.new.order.items ≡ self.old.order.items ++ variable ∷ []) }
        ensures seen { OnOk result (self.new.seen.items ≡ self.old.seen.items) }
        ensures way { OnOk result (self.new.way.items ≡ self.old.way.items) }
    {
        self.order.push(variable)?;
        self.ranks[variable] = self.order.len();
        Ok(())
    }

    /// Goes on to the next part without a rank of the last variable of the path, or gives that variable a rank. False
    /// where the path is longer than the number of type variables, so that it has a cycle.
    fn step<'a>(&mut self, slots: &[Slot<'a>], start: usize, at: usize) -> Result<bool, AllocError>
        requires fits { Fits slots.now }
        requires walk { IsWalk slots.now self.old.ranks.items self.old.order.items self.old.seen.items }
        requires way { IsOnWay slots.now start self.old.ranks.items (at ∷ reverse self.old.way.items) }
        ensures { IfOk result (GoesOn slots.now start self.old.ranks.items (at ∷ reverse self.old.way.items) self.new) }
    {
        let parts = slot_parts(slots[at]);
        let ranked = ranked_parts(&self.ranks, parts, self.seen[at]);
        self.seen[at] = ranked;
        if ranked == parts.count {
            self.settle(at)?;
            return Ok(true);
        }
        if self.way.len() >= slots.len() {
            return Ok(false);
        }
        self.way.push(at)?;
        self.way.push(parts.first + ranked)?;
        Ok(true)
    }

    /// Gives ranks to a type variable and to all that it refers to, directly or not. False where no typing meets the
    /// slots.
    pub(crate) fn follow<'a>(
        &mut self,
        slots: &[Slot<'a>],
        start: usize,
    ) -> Result<bool, AllocError>
        requires fits { Fits slots.now }
        requires walk { IsWalk slots.now self.old.ranks.items self.old.order.items self.old.seen.items }
        requires empty { self.old.way.items ≡ [] }
        requires within { start < length slots.now }
        ensures { IfOk result (EndsWell slots.now start self.old.ranks.items self.new) }
    {
        if self.ranks[start] != 0 {
            return Ok(true);
        }
        self.way.push(start)?;
        while let Some(at) = self.way.pop() {
            if !self.step(slots, start, at)? {
                return Ok(false);
            }
        }
        Ok(true)
    }
}

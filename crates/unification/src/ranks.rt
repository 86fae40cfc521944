//! Ranks of type variables: each refers only to variables of lower ranks, unless a type would be a part of itself.

ghost use Rattle.std.specs.Prelude.{IfOk, MatchOption};
ghost use Rattle.unification.specs.Slots.{Typing, Meets, Fits};
ghost use Rattle.unification.specs.Ranked.{IsRanking};

use crate::type_variables::slots::Slot;
use crate::walk::Walk;
use std::alloc::{AllocError, Global};

/// The ranks of all type variables, from 1 on, and the variables in the order of their ranks.
#[derive(Drop)]
pub struct Ranking {
    pub ranks: Vec<usize>,
    pub order: Vec<usize>,
}

/// Returns the ranks of all type variables; none where no typing meets the slots, since a type would be a part of
/// itself. The time is linear in the slots and the parts that they refer to.
pub fn ranks<'a>(alloc: Global, slots: &[Slot<'a>]) -> Result<Option<Ranking>, AllocError>
    requires { Fits slots.now }
    ensures { IfOk result (λ found. MatchOption found ((t : Typing) → Meets slots.now t → ⊥) (λ ranking. IsRanking slots.now ranking.ranks.items ranking.order.items)) }
{
    let mut walk = Walk {
        ranks: vec![in alloc; 0; slots.len()]?,
        order: Vec::new(alloc),
        seen: vec![in alloc; 0; slots.len()]?,
        way: Vec::new(alloc),
    };
    for start in 0..slots.len() {
        if !walk.follow(slots, start)? {
            return Ok(None);
        }
    }
    Ok(Some(Ranking {
        ranks: walk.ranks,
        order: walk.order,
    }))
}

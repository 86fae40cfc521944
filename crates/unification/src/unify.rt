//! Unification.

ghost use Rattle.std.specs.Prelude.{◌≡◌, ◌≤◌, IfOk, IfErr, MatchOption, length, take};
ghost use Rattle.unification.specs.Unifiers.{IsMostGeneral, IsFirstClash, HasNoUnifier};
ghost use Rattle.unification.specs.Solved.{unifier};
ghost use Rattle.unification.specs.Answers.{SolvableSays};
ghost use Rattle.unification.specs.Faults.{FaultSays};

use crate::pairs::{TypePair, Unifier, solve};
use crate::ranks::ranks;
use std::alloc::{AllocError, Global};

/// Why there is no unifier.
#[derive(Clone, Copy, Debug, PartialEq, Eq)]
pub enum UnifyFault {
    NoMemory,
    /// The pairs up to and including this one, counted from 0, have no unifier, and those before it have one.
    Clash(usize),
}

/// Returns a most general unifier of the first so many pairs; none where they have no unifier.
fn attempt<'a>(
    alloc: Global,
    pairs: &'a [TypePair],
    count: usize,
    variables: usize,
) -> Result<Option<Unifier<'a>>, AllocError>
    requires { count ≤ length pairs.now }
    ensures { IfOk result (λ answer. MatchOption answer (HasNoUnifier variables (take count pairs.now)) (λ found. IsMostGeneral variables (unifier found.slots.items found.ranks.items) (take count pairs.now))) }
{
    match solve(alloc, pairs, count, variables)? {
        None => Ok(None),
        Some(slots) => match ranks(alloc, &slots)? {
            None => Ok(None),
            Some(ranking) => {
                let ranks = ranking.ranks;
                Ok(Some(Unifier { slots, ranks }))
            }
        },
    }
}

/// Decides whether the first so many pairs have a unifier.
fn solvable(
    alloc: Global,
    pairs: &[TypePair],
    count: usize,
    variables: usize,
) -> Result<bool, AllocError>
    requires { count ≤ length pairs.now }
    ensures { IfOk result (SolvableSays variables (take count pairs.now)) }
{
    match solve(alloc, pairs, count, variables)? {
        None => Ok(false),
        Some(slots) => match ranks(alloc, &slots)? {
            None => Ok(false),
            Some(_) => Ok(true),
        },
    }
}

/// Finds the first pair such that the pairs up to and including it have no unifier.
fn first_clash(alloc: Global, pairs: &[TypePair], variables: usize) -> Result<usize, AllocError>
    requires { HasNoUnifier variables (take (length pairs.now) pairs.now) }
    ensures { IfOk result (λ k. IsFirstClash variables k pairs.now) }
{
    let mut low = 0;
    let mut high = pairs.len();
    while high - low > 1 {
        let middle = low + (high - low) / 2;
        if solvable(alloc, pairs, middle, variables)? {
            low = middle;
        } else {
            high = middle;
        }
    }
    Ok(low)
}

impl From<AllocError> for UnifyFault {
    ghost use Rattle.unification.specs.declared.unify.UnifyFault.TheVariants.{NoMemory};

    ghost from_gives = { λ _ fault. fault ≡ NoMemory };

    fn from(_: AllocError) -> UnifyFault {
        UnifyFault::NoMemory
    }
}

/// Returns a most general unifier of the pairs, whose variables are the first so many type parameters.
pub fn unify<'a>(
    alloc: Global,
    pairs: &'a [TypePair],
    variables: usize,
) -> Result<Unifier<'a>, UnifyFault>
    ensures general { IfOk result (λ found. IsMostGeneral variables (unifier found.slots.items found.ranks.items) pairs.now) }
    ensures clash { IfErr result (FaultSays variables pairs.now) }
{
    match attempt(alloc, pairs, pairs.len(), variables)? {
        None => Err(UnifyFault::Clash(first_clash(alloc, pairs, variables)?)),
        Some(found) => Ok(found),
    }
}

//! Pairs of types to unify.

ghost use Rattle.std.specs.Prelude.{◌≡◌, ◌≤◌, IsTrue, IfOk, MatchOption, length, take};
ghost use Rattle.unification.specs.Slots.{Fits};
ghost use Rattle.unification.specs.Grown.{Grows};
ghost use Rattle.unification.specs.Unifiers.{apply, HasNoUnifier};
ghost use Rattle.unification.specs.Solved.{Solves};

use crate::type_variables::open::open_slots;
use crate::type_variables::signature::{Parameters, instance};
use crate::type_variables::slots::Slot;
use crate::type_variables::variables::one;
use base::types::TypeTerm;
use std::alloc::{AllocError, Global};

/// Two types to unify.
#[derive(Drop)]
pub struct TypePair {
    pub left: TypeTerm,
    pub right: TypeTerm,
}

/// A unifier: what is known of the variables and of the parts of their types, and ranks. Types share their parts, so it
/// is small even where the types written out would be large.
#[derive(Drop)]
pub struct Unifier<'a> {
    pub slots: Vec<Slot<'a>>,
    pub ranks: Vec<usize>,
}

/// Unifies the types of a pair.
fn join<'a>(
    alloc: Global,
    slots: &mut Vec<Slot<'a>>,
    left: &'a TypeTerm,
    right: &'a TypeTerm,
    variables: usize,
) -> Result<bool, AllocError>
    requires fits { Fits slots.old.items }
    requires variables { variables ≤ length slots.old.items }
    ensures { IfOk result (λ answer. Grows slots.old.items (λ t. apply variables t left.now ≡ apply variables t right.now) slots.new.items (λ t. IsTrue answer)) }
{
    let parameters = Parameters {
        base: 0,
        count: variables,
    };
    let first = instance(alloc, slots, left, parameters)?;
    let second = instance(alloc, slots, right, parameters)?;
    one(alloc, slots, first, second)
}

/// Unifies the first so many pairs, and returns what is known of the variables; none where they have no unifier.
pub fn solve<'a>(
    alloc: Global,
    pairs: &'a [TypePair],
    count: usize,
    variables: usize,
) -> Result<Option<Vec<Slot<'a>>>, AllocError>
    requires { count ≤ length pairs.now }
    ensures { IfOk result (λ found. MatchOption found (HasNoUnifier variables (take count pairs.now)) (λ slots. Solves variables (take count pairs.now) slots.items)) }
{
    let mut slots = open_slots(alloc, variables)?;
    for i in 0..count {
        let pair = &pairs[i];
        if !join(alloc, &mut slots, &pair.left, &pair.right, variables)? {
            return Ok(None);
        }
    }
    Ok(Some(slots))
}

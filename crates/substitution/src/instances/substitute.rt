//! Substitution.

ghost use Rattle.std.specs.Prelude.{IfOk};
ghost use Rattle.substitution.specs.Instances.{IsInstance, IsTrueAlike};

use crate::binders::Binders;
use crate::instances::replaced::{Put, replace_in};
use crate::instances::unused::{BLOCK_LENGTH, unused_from};
use base::memory::NoMemory;
use fol::depth::is_deeper;
use fol::formula::{Formula, Term};
use std::alloc::Global;

/// Returns the formula with the term substituted for the free occurrences of the variable: `instance`. It is true
/// exactly when the formula is true with the term's value for the variable: `truth`. A bound variable that is
/// free in the term gets a number that occurs in neither; the others keep theirs, which no clause says.
///
/// `NoMemory` is also returned if the formula is deeper than 2,048, for which the stack might not suffice, or if no
/// block of 2,048 unused numbers is found.
#[tactic(auto, using(crate::proofs::ReplacedInstance::replaced_instance, crate::proofs::ReplacedInstance::replaced_truth))]
pub fn substitute(
    alloc: Global,
    formula: &Formula,
    variable: u32,
    term: &Term,
) -> Result<Formula, NoMemory>
    ensures instance { IfOk result (λ made. IsInstance variable term.now formula.now made) }
    ensures truth { IfOk result (λ made. IsTrueAlike variable term.now formula.now made) }
{
    if is_deeper(formula, BLOCK_LENGTH) {
        return Err(NoMemory);
    }
    let next = match unused_from(formula, term) {
        Some(next) => next,
        None => return Err(NoMemory),
    };
    let put = Put {
        variable,
        term,
        next,
    };
    replace_in(alloc, &Binders::Top, put, formula)
}

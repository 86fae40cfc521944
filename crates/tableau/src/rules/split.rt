//! The beta rule (case split): the cases of disjunctions.

ghost use Rattle.std.specs.Prelude.{◌≡◌, ◌∷◌, [], None, IfOk, MatchOption};
ghost use Rattle.fol.specs.FormulaData.{NotFormula};
ghost use Rattle.certificates.specs.Parts.{both_of, cases_of, cases_of_negated};
ghost use Rattle.term_pool.specs.Pools.{Extends};
ghost use Rattle.tableau.specs.PoolBranches.{branch_in, IsFormulaNumber, IsOver};
ghost use Rattle.tableau.specs.Numbers.{formula_at, AreNumbersOf, AreNumbersIn};
ghost use Rattle.tableau.specs.Steps.{NoSplitAt, NoSplit, NoSplitBefore, AreCasesDue, IsSplitStep};

use crate::branch::PoolBranch;
use crate::rules::compounds::{Compound, compound_at};
use crate::rules::formulas::{EntryStep, both, denial, denials, listed, pair};
use crate::rules::stands::{are_new, are_shallow};
use base::memory::NoMemory;
use fol::operators::{Connective, Junction};
use std::alloc::Global;
use term_pool::pool::Pool;

/// Returns the numbers of the cases of a disjunction; none for another formula.
pub fn cases(alloc: Global, pool: &mut Pool, formula: usize) -> Result<Option<Vec<usize>>, NoMemory>
    requires { IsFormulaNumber pool.old formula }
    ensures extends { Extends pool.old pool.new }
    ensures are { IfOk result (λ found. MatchOption found (cases_of (formula_at pool.old formula) ≡ None) (λ numbers. AreNumbersIn pool.new (cases_of (formula_at pool.old formula)) numbers.items)) }
{
    match compound_at(pool, formula) {
        Some(Compound::Join(Junction::AnyOf, list)) => Ok(Some(listed(alloc, pool, list)?)),
        Some(Compound::Connect(Connective::Implies, left, right)) => {
            let denied = denial(pool, left)?;
            Ok(Some(pair(alloc, denied, right)?))
        }
        Some(Compound::Connect(Connective::Iff, left, right)) => {
            Ok(Some(both_or_neither(alloc, pool, left, right)?))
        }
        Some(Compound::Not(inner)) => negated_cases(alloc, pool, inner),
        _ => Ok(None),
    }
}

// Returns the numbers of the cases of the negation of a formula, if that is a disjunction.
fn negated_cases(
    alloc: Global,
    pool: &mut Pool,
    formula: usize,
) -> Result<Option<Vec<usize>>, NoMemory>
    requires { IsFormulaNumber pool.old formula }
    ensures extends { Extends pool.old pool.new }
    ensures are { IfOk result (λ found. MatchOption found (cases_of_negated (formula_at pool.old formula) ≡ None) (λ numbers. AreNumbersIn pool.new (cases_of_negated (formula_at pool.old formula)) numbers.items)) }
{
    match compound_at(pool, formula) {
        Some(Compound::Join(Junction::AllOf, list)) => {
            let parts = listed(alloc, pool, list)?;
            Ok(Some(denials(alloc, pool, parts.as_slice())?))
        }
        Some(Compound::Connect(Connective::Iff, left, right)) => {
            Ok(Some(only_one(alloc, pool, left, right)?))
        }
        _ => Ok(None),
    }
}

// Returns the numbers of the cases in which two formulas are equivalent.
fn both_or_neither(
    alloc: Global,
    pool: &mut Pool,
    left: usize,
    right: usize,
) -> Result<Vec<usize>, NoMemory>
    requires left { IsFormulaNumber pool.old left }
    requires right { IsFormulaNumber pool.old right }
    ensures extends { Extends pool.old pool.new }
    ensures are { IfOk result (λ numbers. AreNumbersOf pool.new (both_of (formula_at pool.old left) (formula_at pool.old right) ∷ both_of (NotFormula (formula_at pool.old left)) (NotFormula (formula_at pool.old right)) ∷ []) numbers.items) }
{
    let not_left = denial(pool, left)?;
    let not_right = denial(pool, right)?;
    let first = both(pool, left, right)?;
    let second = both(pool, not_left, not_right)?;
    pair(alloc, first, second)
}

// Returns the numbers of the cases in which two formulas differ.
fn only_one(
    alloc: Global,
    pool: &mut Pool,
    left: usize,
    right: usize,
) -> Result<Vec<usize>, NoMemory>
    requires left { IsFormulaNumber pool.old left }
    requires right { IsFormulaNumber pool.old right }
    ensures extends { Extends pool.old pool.new }
    ensures are { IfOk result (λ numbers. AreNumbersOf pool.new (both_of (formula_at pool.old left) (NotFormula (formula_at pool.old right)) ∷ both_of (NotFormula (formula_at pool.old left)) (formula_at pool.old right) ∷ []) numbers.items) }
{
    let not_left = denial(pool, left)?;
    let not_right = denial(pool, right)?;
    let first = both(pool, left, not_right)?;
    let second = both(pool, not_left, right)?;
    pair(alloc, first, second)
}

/// Finds the first entry at which a split of the branch is due, with the numbers of its cases; none if no split is
/// due. The search begins at entry `from`.
pub fn next_split(
    alloc: Global,
    pool: &mut Pool,
    branch: &PoolBranch,
    from: usize,
) -> Result<Option<EntryStep>, NoMemory>
    requires over { IsOver pool.old branch.now }
    requires before { NoSplitBefore (branch_in pool.old branch.now) from }
    ensures extends { Extends pool.old pool.new }
    ensures due { IfOk result (λ found. MatchOption found (NoSplit (branch_in pool.new branch.now)) (IsSplitStep pool.new (branch_in pool.new branch.now))) }
{
    for i in from..branch.len() {
        if let Some(formulas) = cases_at(alloc, pool, branch, i)? {
            return Ok(Some(EntryStep { entry: i, formulas }));
        }
    }
    Ok(None)
}

/// Returns the numbers of the cases of the entry with this number if a split is due there, and none otherwise.
pub fn cases_at(
    alloc: Global,
    pool: &mut Pool,
    branch: &PoolBranch,
    i: usize,
) -> Result<Option<Vec<usize>>, NoMemory>
    requires { IsOver pool.old branch.now }
    ensures extends { Extends pool.old pool.new }
    ensures due { IfOk result (λ found. MatchOption found (NoSplitAt (branch_in pool.new branch.now) i) (λ numbers. AreCasesDue pool.new (branch_in pool.new branch.now) i numbers.items)) }
{
    let Some(entry) = branch.entry(i) else {
        return Ok(None);
    };
    let Some(formulas) = cases(alloc, pool, entry.formula)? else {
        return Ok(None);
    };
    if formulas.is_empty() {
        return Ok(None);
    }
    if are_new(pool, branch, formulas.as_slice()) && are_shallow(pool, formulas.as_slice()) {
        return Ok(Some(formulas));
    }
    Ok(None)
}

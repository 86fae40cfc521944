//! The alpha rule: the parts (conjuncts) of conjunctions.

ghost use Rattle.std.specs.Prelude.{◌≡◌, None, IfOk, MatchOption};
ghost use Rattle.certificates.specs.Parts.{parts_of, parts_of_negated};
ghost use Rattle.term_pool.specs.Pools.{Extends};
ghost use Rattle.tableau.specs.PoolBranches.{branch_in, IsFormulaNumber, IsOver};
ghost use Rattle.tableau.specs.Numbers.{formula_at, AreNumbersIn};
ghost use Rattle.tableau.specs.Steps.{NoPartsAt, NoParts, NoPartsBefore, ArePartsDue, IsPartsStep};

use crate::branch::PoolBranch;
use crate::rules::compounds::{Compound, compound_at};
use crate::rules::formulas::{EntryStep, denial, denials, listed, pair};
use crate::rules::stands::{are_shallow, has_new};
use base::memory::NoMemory;
use fol::operators::{Connective, Junction};
use std::alloc::Global;
use term_pool::pool::Pool;

/// Returns the numbers of the parts of a conjunction; none for another formula.
pub fn parts(alloc: Global, pool: &mut Pool, formula: usize) -> Result<Option<Vec<usize>>, NoMemory>
    requires { IsFormulaNumber pool.old formula }
    ensures extends { Extends pool.old pool.new }
    ensures are { IfOk result (λ found. MatchOption found (parts_of (formula_at pool.old formula) ≡ None) (λ numbers. AreNumbersIn pool.new (parts_of (formula_at pool.old formula)) numbers.items)) }
{
    match compound_at(pool, formula) {
        Some(Compound::Join(Junction::AllOf, list)) => Ok(Some(listed(alloc, pool, list)?)),
        Some(Compound::Not(inner)) => negated_parts(alloc, pool, inner),
        _ => Ok(None),
    }
}

// Returns the numbers of the parts of the negation of a formula, if that is a conjunction.
fn negated_parts(
    alloc: Global,
    pool: &mut Pool,
    formula: usize,
) -> Result<Option<Vec<usize>>, NoMemory>
    requires { IsFormulaNumber pool.old formula }
    ensures extends { Extends pool.old pool.new }
    ensures are { IfOk result (λ found. MatchOption found (parts_of_negated (formula_at pool.old formula) ≡ None) (λ numbers. AreNumbersIn pool.new (parts_of_negated (formula_at pool.old formula)) numbers.items)) }
{
    match compound_at(pool, formula) {
        Some(Compound::Join(Junction::AnyOf, list)) => {
            let cases = listed(alloc, pool, list)?;
            Ok(Some(denials(alloc, pool, cases.as_slice())?))
        }
        Some(Compound::Connect(Connective::Implies, left, right)) => {
            let denied = denial(pool, right)?;
            Ok(Some(pair(alloc, left, denied)?))
        }
        Some(Compound::Not(inner)) => {
            let mut only = Vec::new(alloc);
            only.push(inner)?;
            Ok(Some(only))
        }
        _ => Ok(None),
    }
}

/// Finds the first entry whose parts are due, with their numbers; none if no parts are due. The search begins at entry
/// `from`.
pub fn next_parts(
    alloc: Global,
    pool: &mut Pool,
    branch: &PoolBranch,
    from: usize,
) -> Result<Option<EntryStep>, NoMemory>
    requires over { IsOver pool.old branch.now }
    requires before { NoPartsBefore (branch_in pool.old branch.now) from }
    ensures extends { Extends pool.old pool.new }
    ensures due { IfOk result (λ found. MatchOption found (NoParts (branch_in pool.new branch.now)) (IsPartsStep pool.new (branch_in pool.new branch.now))) }
{
    for i in from..branch.len() {
        if let Some(formulas) = parts_at(alloc, pool, branch, i)? {
            return Ok(Some(EntryStep { entry: i, formulas }));
        }
    }
    Ok(None)
}

/// Returns the numbers of the parts of the entry with this number; none if no parts are due there.
pub fn parts_at(
    alloc: Global,
    pool: &mut Pool,
    branch: &PoolBranch,
    i: usize,
) -> Result<Option<Vec<usize>>, NoMemory>
    requires { IsOver pool.old branch.now }
    ensures extends { Extends pool.old pool.new }
    ensures due { IfOk result (λ found. MatchOption found (NoPartsAt (branch_in pool.new branch.now) i) (λ numbers. ArePartsDue pool.new (branch_in pool.new branch.now) i numbers.items)) }
{
    let Some(entry) = branch.entry(i) else {
        return Ok(None);
    };
    let Some(formulas) = parts(alloc, pool, entry.formula)? else {
        return Ok(None);
    };
    if has_new(pool, branch, formulas.as_slice()) && are_shallow(pool, formulas.as_slice()) {
        return Ok(Some(formulas));
    }
    Ok(None)
}

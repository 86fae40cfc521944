//! Instances of quantified formulas for a term.

ghost use Rattle.std.specs.Prelude.{◌≡◌, ◌↔◌, IsTrue, IfOk};
ghost use Rattle.fol.specs.declared.operators.Quantifier.TheVariants.{ForAll};
ghost use Rattle.certificates.specs.Quantified.{IsBodyWith};
ghost use Rattle.certificates.specs.Due.{HasInstance};
ghost use Rattle.tableau.specs.PoolBranches.{branch_in, IsFormulaNumber, IsTermNumber, IsOver};
ghost use Rattle.ematching.specs.Numbers.{term_at, formula_at};
ghost use Rattle.ematching.specs.Quantified.{IsQuantified};
ghost use Rattle.ematching.specs.Bodies.{IsSaidAt};
ghost use Rattle.ematching.specs.QuantifierFree.{quantifier_free};

use crate::applications::truths::is_false;
use base::memory::NoMemory;
use certificates::branch::Entry;
use certificates::quantified::is_body_with;
use ematching::quantified::Universal;
use fol::formula::{Formula, Term};
use fol::operators::Quantifier;
use std::alloc::Global;
use tableau::branch::PoolBranch;
use term_pool::pool::Pool;
use term_pool::reading::{read_formula, read_term};

// Decides whether the formula with this number is the entry's instance for the term, by this quantifier or by the
// negation of the other one, up to renaming of bound variables.
pub(crate) fn is_said_of(
    alloc: Global,
    pool: &Pool,
    quantifier: Quantifier,
    entry: &Formula,
    term: &Term,
    formula: usize,
) -> Result<bool, NoMemory>
    ensures { IfOk result (λ known. IsTrue known ↔ IsBodyWith quantifier term.now entry.now (formula_at pool.now formula)) }
{
    let read = read_formula(alloc, pool, formula)?;
    Ok(is_body_with(quantifier, Entry::Plain(entry), term, &read))
}

// Decides whether the entry with this number is the formula's instance for the term.
fn is_said_at(
    alloc: Global,
    pool: &Pool,
    branch: &PoolBranch,
    of: &Formula,
    term: &Term,
    i: usize,
) -> Result<bool, NoMemory>
    requires { IsOver pool.now branch.now }
    ensures { IfOk result (λ known. IsTrue known ↔ IsSaidAt (branch_in pool.now branch.now) of.now term.now i) }
{
    let Some(entry) = branch.entry(i) else {
        return Ok(false);
    };
    is_said_of(alloc, pool, Quantifier::ForAll, of, term, entry.formula)
}

// Decides whether some entry is. All entries are visited, since bound variables may have other numbers there.
fn is_said(
    alloc: Global,
    pool: &Pool,
    branch: &PoolBranch,
    of: &Formula,
    term: &Term,
) -> Result<bool, NoMemory>
    requires { IsOver pool.now branch.now }
    ensures { IfOk result (λ known. IsTrue known ↔ HasInstance (branch_in pool.now branch.now) of.now term.now) }
{
    for i in 0..branch.len() {
        let said = is_said_at(alloc, pool, branch, of, term, i)?;
        if said {
            return Ok(true);
        }
    }
    Ok(false)
}

// Decides whether the formula is the instance, for the term, of the formula with the number `of`, and no entry is. If
// the body is without quantifiers there is only one such formula, and a look-up decides it.
pub(crate) fn is_fresh(
    alloc: Global,
    pool: &Pool,
    branch: &PoolBranch,
    of: usize,
    universal: Universal,
    is_free: bool,
    term: usize,
    formula: usize,
) -> Result<bool, NoMemory>
    requires over { IsOver pool.now branch.now }
    requires universal { IsQuantified pool.now (formula_at pool.now of) universal }
    requires free { is_free ≡ quantifier_free (formula_at pool.now universal.body) }
    requires term { IsTermNumber pool.now term }
    requires formula { IsFormulaNumber pool.now formula }
    ensures { IfOk result (λ known. IsTrue known ↔ (IsBodyWith ForAll (term_at pool.now term) (formula_at pool.now of) (formula_at pool.now formula) × (HasInstance (branch_in pool.now branch.now) (formula_at pool.now of) (term_at pool.now term) → ⊥))) }
{
    let whole = read_formula(alloc, pool, of)?;
    let value = read_term(alloc, pool, term)?;
    let is_body = is_said_of(alloc, pool, Quantifier::ForAll, &whole, &value, formula)?;
    if !is_body {
        return Ok(false);
    }
    if branch.stands(pool, formula) {
        return Ok(false);
    }
    if is_free {
        return Ok(true);
    }
    let said = is_said(alloc, pool, branch, &whole, &value)?;
    Ok(is_false(said))
}

//! Decides whether the instance of a universal formula for a term is on a branch.

ghost use Rattle.std.specs.Prelude.{◌≡◌, ◌↔◌, IfOk, IsTrue, MatchOption};
ghost use Rattle.tableau.specs.PoolBranches.{branch_in, IsFormulaNumber, IsTermNumber, IsOver};
ghost use Rattle.certificates.specs.Due.{HasInstance};
ghost use Rattle.ematching.specs.Numbers.{term_at, formula_at};
ghost use Rattle.ematching.specs.QuantifierFree.{quantifier_free};
ghost use Rattle.ematching.specs.Bodies.{universal_at, IsSaidNumber, IsInner, HasNoInner, IsSaidAt};

use crate::quantified::Universal;
use base::memory::NoMemory;
use fol::formula::{Formula, Term};
use std::alloc::Global;
use substitution::instance::is_instance;
use tableau::branch::PoolBranch;
use term_pool::pool::Pool;
use term_pool::reading::{read_formula, read_term};

// The number of the formula; if `is_denied`, that of its operand, and none if it is no negation.
fn inner_of(pool: &Pool, is_denied: bool, formula: usize) -> Option<usize>
    requires { IsFormulaNumber pool.now formula }
    ensures { MatchOption result (HasNoInner is_denied (formula_at pool.now formula)) (IsInner pool.now is_denied formula) }
{
    if is_denied {
        return pool.denied(formula);
    }
    Some(formula)
}

// Decides whether the entry with this number is the instance, up to alpha equivalence. All instances have the depth of
// the one that was made.
fn is_said_at(
    alloc: Global,
    pool: &Pool,
    branch: &PoolBranch,
    universal: Universal,
    body: &Formula,
    term: &Term,
    made: usize,
    i: usize,
) -> Result<bool, NoMemory>
    requires over { IsOver pool.now branch.now }
    requires body { body.now ≡ formula_at pool.now universal.body }
    requires made { IsSaidNumber pool.now (universal_at pool.now universal) term.now made }
    ensures { IfOk result (λ r. IsTrue r ↔ IsSaidAt (branch_in pool.now branch.now) (universal_at pool.now universal) term.now i) }
{
    let Some(entry) = branch.entry(i) else {
        return Ok(false);
    };
    let depth = pool.depth(entry.formula);
    let of_made = pool.depth(made);
    if depth != of_made {
        return Ok(false);
    }
    let Some(inner) = inner_of(pool, universal.is_denied, entry.formula) else {
        return Ok(false);
    };
    let found = read_formula(alloc, pool, inner)?;
    Ok(is_instance(body, universal.variable, term, &found))
}

// Decides whether some entry is the instance, by a search of all entries.
fn is_said_somewhere(
    alloc: Global,
    pool: &Pool,
    branch: &PoolBranch,
    universal: Universal,
    term: usize,
    made: usize,
) -> Result<bool, NoMemory>
    requires over { IsOver pool.now branch.now }
    requires made { IsSaidNumber pool.now (universal_at pool.now universal) (term_at pool.now term) made }
    ensures { IfOk result (λ r. IsTrue r ↔ HasInstance (branch_in pool.now branch.now) (universal_at pool.now universal) (term_at pool.now term)) }
{
    let body = read_formula(alloc, pool, universal.body)?;
    let value = read_term(alloc, pool, term)?;
    for i in 0..branch.len() {
        let is_said = is_said_at(alloc, pool, branch, universal, &body, &value, made, i)?;
        if is_said {
            return Ok(true);
        }
    }
    Ok(false)
}

/// Decides whether the instance of the universal formula for the term is on the branch, up to alpha equivalence. If
/// the body is quantifier-free, the instance is unique, and one look-up decides.
pub(crate) fn is_said(
    alloc: Global,
    pool: &Pool,
    branch: &PoolBranch,
    universal: Universal,
    is_free: bool,
    term: usize,
    made: usize,
) -> Result<bool, NoMemory>
    requires over { IsOver pool.now branch.now }
    requires free { is_free ≡ quantifier_free (formula_at pool.now universal.body) }
    requires made { IsSaidNumber pool.now (universal_at pool.now universal) (term_at pool.now term) made }
    ensures { IfOk result (λ r. IsTrue r ↔ HasInstance (branch_in pool.now branch.now) (universal_at pool.now universal) (term_at pool.now term)) }
{
    if branch.stands(pool, made) {
        return Ok(true);
    }
    if is_free {
        return Ok(false);
    }
    is_said_somewhere(alloc, pool, branch, universal, term, made)
}

//! The two sides of a bound: a term is at most a number, or at least the next one.

ghost use Rattle.std.specs.Prelude.{◌≡◌, ◌↔◌, pos, ◌+ℤ◌, IsTrue, MatchOption};
ghost use Rattle.fol.specs.FormulaData.{NumTerm, LeFormula};
ghost use Rattle.tableau.specs.PoolBranches.{IsFormulaNumber, IsTermNumber};
ghost use Rattle.tableau.specs.Numbers.{formula_at};
ghost use Rattle.tableau.specs.Terms.{term_at};
ghost use Rattle.tree_checks.specs.Sides.{IsNoOrder, IsOrder, AreBoundsOf};

use crate::grown::reading::{is_same, numeral_at, sides_at};
use fol::operators::Comparison;
use tableau::rules::stands::is_shallow;
use term_pool::pool::Pool;

// The sides of a formula stating that one term is at most another one.
fn order_at(pool: &Pool, formula: usize) -> Option<(usize, usize)>
    requires { IsFormulaNumber pool.now formula }
    ensures { MatchOption result (IsNoOrder (formula_at pool.now formula)) (IsOrder pool.now (formula_at pool.now formula)) }
{
    let Some(sides) = sides_at(pool, formula) else {
        return None;
    };
    match sides.operator {
        Comparison::Le => Some((sides.left, sides.right)),
        Comparison::Eq => None,
    }
}

// Decides whether the two numbers are equal.
fn is_it(value: i128, number: i128) -> bool
    ensures { IsTrue result ↔ (value ≡ number) }
{
    value == number
}

// Decides whether the first number is the successor of the other, which may not fit in 128 bits.
fn is_next(value: i128, number: i128) -> bool
    ensures { IsTrue result ↔ (value ≡ number +ℤ pos 1) }
{
    if number == i128::MAX {
        return false;
    }
    value == number + 1
}

// Decides whether the term is this numeral.
fn is_numeral(pool: &Pool, term: usize, number: i128) -> bool
    ensures { IsTrue result ↔ (term_at pool.now term ≡ NumTerm number) }
{
    match numeral_at(pool, term) {
        Some(value) => is_it(value, number),
        None => false,
    }
}

// Decides whether the term is the numeral of the next number.
fn is_next_numeral(pool: &Pool, term: usize, number: i128) -> bool
    ensures { IsTrue result ↔ (term_at pool.now term ≡ NumTerm (number +ℤ pos 1)) }
{
    match numeral_at(pool, term) {
        Some(value) => is_next(value, number),
        None => false,
    }
}

// Decides whether the formula states that the term is at most the number.
fn is_below(pool: &Pool, formula: usize, term: usize, number: i128) -> bool
    requires formula { IsFormulaNumber pool.now formula }
    requires term { IsTermNumber pool.now term }
    ensures { IsTrue result ↔ (formula_at pool.now formula ≡ LeFormula (term_at pool.now term) (NumTerm number)) }
{
    pool.one_number();
    let Some((left, right)) = order_at(pool, formula) else {
        return false;
    };
    if !is_same(left, term) {
        return false;
    }
    is_numeral(pool, right, number)
}

// Decides whether the formula states that the next number is at most the term.
fn is_above(pool: &Pool, formula: usize, term: usize, number: i128) -> bool
    requires formula { IsFormulaNumber pool.now formula }
    requires term { IsTermNumber pool.now term }
    ensures { IsTrue result ↔ (formula_at pool.now formula ≡ LeFormula (NumTerm (number +ℤ pos 1)) (term_at pool.now term)) }
{
    pool.one_number();
    let Some((left, right)) = order_at(pool, formula) else {
        return false;
    };
    if !is_same(right, term) {
        return false;
    }
    is_next_numeral(pool, left, number)
}

/// Decides whether the two formulas are the sides of the bound, and no deeper than a step may add.
pub(crate) fn are_bounds(pool: &Pool, term: usize, number: i128, below: usize, above: usize) -> bool
    requires below { IsFormulaNumber pool.now below }
    requires above { IsFormulaNumber pool.now above }
    requires term { IsTermNumber pool.now term }
    ensures { IsTrue result ↔ AreBoundsOf pool.now (term_at pool.now term) number below above }
{
    if !is_below(pool, below, term, number) {
        return false;
    }
    if !is_above(pool, above, term, number) {
        return false;
    }
    if !is_shallow(pool, below) {
        return false;
    }
    is_shallow(pool, above)
}

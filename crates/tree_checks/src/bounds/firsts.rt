//! The first value that lies between a number and the next one.

ghost use Rattle.std.specs.Prelude.{◌≤◌, ◌↔◌, ℕ, pos, length, IsTrue, IfOk, MatchOption};
ghost use Rattle.std.proofs.Common.{◌<ℤ◌};
ghost use Rattle.fol.specs.FormulaData.{TermData};
ghost use Rattle.linear_arith.specs.Substitution.{ArePositive};
ghost use Rattle.certificates.specs.ProofTraces.{IsBetween};
ghost use Rattle.tableau.specs.PoolBranches.{branch_in, IsTermNumber, IsNoTerm, IsOver};
ghost use Rattle.tableau.specs.Terms.{term_at};
ghost use Rattle.row_reasoning.specs.Rows.{AreNames};
ghost use Rattle.tree_checks.specs.Firsts.{IsOfName, IsTriggered, IsNameOf, IsFirstWith, HasNoneWith, IsFirstNamed};

use base::memory::NoMemory;
use indexmap::IndexSet;
use linear_arith::numbers::floor_quotient;
use linear_arith::rows::Fraction;
use row_reasoning::values::bounds::next_bound;
use std::alloc::Global;
use tableau::branch::PoolBranch;
use term_pool::pool::Pool;

// Decides whether a value lies between the number and the next one.
fn is_between(number: i128, value: Fraction) -> bool
    requires { pos 0 <ℤ value.denominator }
    ensures { IsTrue result ↔ IsBetween number value }
{
    let divisor = value.denominator.unsigned_abs();
    if value.numerator.unsigned_abs() % divisor == 0 {
        return false;
    }
    floor_quotient(value.numerator, divisor) == number
}

// Decides whether an unknown is that of the class with the representative, or of any class if there is no
// representative.
fn is_of_name(classes: &IndexSet<usize>, name: Option<usize>, unknown: usize) -> bool
    ensures { IsTrue result ↔ IsOfName classes.now.keys name unknown }
{
    let Some(class) = classes.get_index(unknown) else {
        return false;
    };
    match name {
        Some(name) => *class == name,
        None => true,
    }
}

// Decides whether a value is that of such an unknown, and lies between the number and the next one.
fn is_triggered(
    classes: &IndexSet<usize>,
    name: Option<usize>,
    number: i128,
    value: Fraction,
) -> bool
    requires { pos 0 <ℤ value.denominator }
    ensures { IsTrue result ↔ IsTriggered classes.now.keys name number value }
{
    is_of_name(classes, name, value.unknown) && is_between(number, value)
}

// The index of the first such value.
fn first_triggered(
    classes: &IndexSet<usize>,
    name: Option<usize>,
    number: i128,
    values: &[Fraction],
) -> Option<usize>
    requires { ArePositive values.now }
    ensures { MatchOption result (HasNoneWith (IsTriggered classes.now.keys name number) values.now) (IsFirstWith (IsTriggered classes.now.keys name number) values.now) }
{
    for position in 0..values.len() {
        if is_triggered(classes, name, number, values[position]) {
            return Some(position);
        }
    }
    None
}

/// The representative of the class of the term. `None` if the term is not on the branch.
pub(crate) fn name_of(
    pool: &Pool,
    branch: &PoolBranch,
    names: &[usize],
    term: usize,
) -> Option<usize>
    requires over { IsOver pool.now branch.now }
    requires named { length pool.now ≤ length names.now }
    requires term { IsTermNumber pool.now term }
    ensures { MatchOption result (IsNoTerm (branch_in pool.now branch.now) (term_at pool.now term)) (IsNameOf (branch_in pool.now branch.now) (term_at pool.now term) names.now term) }
{
    match branch.generation(pool, term) {
        Some(_) => Some(names[term]),
        None => None,
    }
}

/// Decides whether a value of the class with the representative `name`, or of any class if there is none, lies between
/// the number and the next one, and those before it are whole if their classes have numbers. `names` gives each term of
/// the branch the representative of its class.
///
/// # Errors
///
/// Only if memory runs out.
pub(crate) fn is_first_named(
    alloc: Global,
    pool: &Pool,
    branch: &PoolBranch,
    names: &[usize],
    classes: &IndexSet<usize>,
    name: Option<usize>,
    number: i128,
    values: &[Fraction],
) -> Result<bool, NoMemory>
    requires over { IsOver pool.now branch.now }
    requires named { length pool.now ≤ length names.now }
    requires positive { ArePositive values.now }
    ensures { (class : TermData → ℕ) → AreNames pool.now (branch_in pool.now branch.now) class names.now → IfOk result (λ known. IsTrue known ↔ IsFirstNamed (branch_in pool.now branch.now) class classes.now.keys name number values.now) }
{
    let Some(position) = first_triggered(classes, name, number, values) else {
        return Ok(false);
    };
    // A value of a number that is not whole requires a bound of its own.
    let bound = next_bound(alloc, pool, branch, names, classes, &values[..position])?;
    Ok(bound.is_none())
}

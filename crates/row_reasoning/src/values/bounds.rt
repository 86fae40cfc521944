//! The bound that the values of a branch's rows require.

ghost use Rattle.std.specs.Prelude.{◌≡◌, ◌≤◌, ℕ, ◌-◌, ◌^◌, pos, ◌+ℤ◌, length, slice_get, All, IfOk, IfSome, MatchOption, nat_eq};
ghost use Rattle.std.proofs.Common.{◌<ℤ◌};
ghost use Rattle.indexmap.specs.IndexMap.{get};
ghost use Rattle.fol.specs.FormulaData.{TermData};
ghost use Rattle.linear_arith.specs.declared.rows.Fraction.{Fraction};
ghost use Rattle.linear_arith.specs.Substitution.{ArePositive};
ghost use Rattle.certificates.specs.Rows.{IsWholeValue, IsWholeIfNumber};
ghost use Rattle.certificates.specs.ProofTraces.{IsBetween};
ghost use Rattle.tableau.specs.PoolBranches.{branch_in, IsOver};
ghost use Rattle.row_reasoning.specs.Rows.{AreNames};
ghost use Rattle.row_reasoning.specs.Bounds.{IsBound, AsksNone, AsksBound, IsFirstAsked};

use crate::values::numbers::{NumberEntry, look_up, number_entries};
use base::memory::NoMemory;
use indexmap::{IndexMap, IndexSet};
use linear_arith::numbers::floor_quotient;
use linear_arith::rows::Fraction;
use std::alloc::Global;
use tableau::branch::PoolBranch;
use term_pool::pool::Pool;

/// The two bounds of a split on a term that is a whole number: it is at most `below`, or at least `above`.
#[derive(Clone, Copy, Debug)]
pub struct Bound {
    /// The number of the entry stating that the term is a whole number.
    pub entry: usize,
    /// The number of the term.
    pub term: usize,
    /// The greatest whole number below the term's value.
    pub below: i128,
    /// The next whole number.
    pub above: i128,
}

// The greatest whole number below a quotient; `None` if the quotient is whole.
fn below(numerator: i128, denominator: i128) -> Option<i128>
    requires { pos 0 <ℤ denominator }
    ensures is { (value : Fraction) → value.numerator ≡ numerator → value.denominator ≡ denominator → MatchOption result (IsWholeValue value) (λ k. IsBetween k value) }
    ensures fits { IfSome result (λ k. k <ℤ pos (2 ^ 127 - 1)) }
{
    let divisor = denominator.unsigned_abs();
    if numerator.unsigned_abs() % divisor == 0 {
        return None;
    }
    Some(floor_quotient(numerator, divisor))
}

// The representative of the class of an unknown.
fn class_at(classes: &IndexSet<usize>, unknown: usize) -> Option<usize>
    ensures { result ≡ slice_get classes.now.keys unknown }
{
    match classes.get_index(unknown) {
        Some(class) => Some(*class),
        None => None,
    }
}

// The bound on the term of the entry.
fn bound_with(number: NumberEntry, below: i128) -> Bound
    requires { below <ℤ pos (2 ^ 127 - 1) }
    ensures { result ≡ record { entry = number.entry; term = number.term; below = below; above = below +ℤ pos 1 } }
{
    Bound {
        entry: number.entry,
        term: number.term,
        below,
        above: below + 1,
    }
}

// The bound that a value requires.
fn bound_of(
    numbers: &IndexMap<usize, NumberEntry>,
    classes: &IndexSet<usize>,
    value: Fraction,
) -> Option<Bound>
    requires { pos 0 <ℤ value.denominator }
    ensures { MatchOption result (AsksNone (get nat_eq numbers.now) classes.now.keys value) (AsksBound (get nat_eq numbers.now) classes.now.keys value) }
{
    let Some(class) = class_at(classes, value.unknown) else {
        return None;
    };
    let Some(number) = look_up(numbers, class) else {
        return None;
    };
    match below(value.numerator, value.denominator) {
        Some(below) => Some(bound_with(number, below)),
        None => None,
    }
}

// The bound of the first value that requires one.
fn first_bound(
    numbers: &IndexMap<usize, NumberEntry>,
    classes: &IndexSet<usize>,
    values: &[Fraction],
) -> Option<Bound>
    requires { ArePositive values.now }
    ensures { MatchOption result (All (AsksNone (get nat_eq numbers.now) classes.now.keys) values.now) (IsFirstAsked (get nat_eq numbers.now) classes.now.keys values.now) }
{
    for value in values {
        if let Some(bound) = bound_of(numbers, classes, *value) {
            return Some(bound);
        }
    }
    None
}

/// Returns the bound for the first value, in the order in which the values were chosen, that is not whole although its
/// class has a number; `None` if there is no such value. `names` gives each term of the branch the representative of
/// its class. `NoMemory` if memory runs out.
pub fn next_bound(
    alloc: Global,
    pool: &Pool,
    branch: &PoolBranch,
    names: &[usize],
    classes: &IndexSet<usize>,
    values: &[Fraction],
) -> Result<Option<Bound>, NoMemory>
    requires over { IsOver pool.now branch.now }
    requires named { length pool.now ≤ length names.now }
    requires positive { ArePositive values.now }
    ensures { (class : TermData → ℕ) → AreNames pool.now (branch_in pool.now branch.now) class names.now → IfOk result (λ found. MatchOption found (All (IsWholeIfNumber (branch_in pool.now branch.now) class classes.now.keys) values.now) (IsBound pool.now (branch_in pool.now branch.now) class classes.now.keys values.now)) }
{
    let numbers = number_entries(alloc, pool, branch, names)?;
    Ok(first_bound(&numbers, classes, values))
}

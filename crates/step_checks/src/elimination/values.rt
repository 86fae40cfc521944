//! Decides whether values are chosen after a given elimination.

ghost use Rattle.std.specs.Prelude.{◌≡◌, ◌≢◌, ◌↔◌, [], map, pos, IsTrue, IfOk};
ghost use Rattle.std.specs.List.{AllPairs};
ghost use Rattle.linear_arith.specs.Values.{AreValues};
ghost use Rattle.step_checks.specs.GivenValues.{AreGivenValues};
ghost use Rattle.step_checks.specs.Sets.{IsNumberSet};

use crate::elimination::GivenElimination;
use crate::elimination::checks::is_complete_elimination;
use crate::elimination::choices::is_chosen;
use crate::elimination::number_set::{has_each_below, number_set};
use crate::elimination::row_list::{RowList, rows_in};
use crate::elimination::rows::greatest_width;
use base::memory::NoMemory;
use linear_arith::rows::{Fraction, Rows};
use std::alloc::Global;
use std::collections::BTreeSet;

/// The unknowns of values, in their order.
fn unknowns_of(alloc: Global, values: &[Fraction]) -> Result<Vec<usize>, NoMemory>
    ensures { IfOk result (λ unknowns. unknowns.items ≡ map (λ value. value.unknown) values.now) }
{
    let mut unknowns = Vec::with_capacity(alloc, values.len())?;
    for value in values {
        unknowns.push(value.unknown)?;
    }
    Ok(unknowns)
}

/// Decides whether the value is 0, with the denominator 1.
fn is_zero(value: &Fraction) -> bool
    ensures { IsTrue result ↔ ((value.now.numerator ≡ pos 0) × (value.now.denominator ≡ pos 1)) }
{
    value.numerator == 0 && value.denominator == 1
}

/// Decides whether values of distinct unknowns are chosen after the elimination of some unknowns from rows: those of
/// the eliminated unknowns, the last eliminated first, and 0 for each other unknown.
fn are_values(
    alloc: Global,
    unknowns: &[usize],
    eliminated: &BTreeSet<usize>,
    rows: &RowList<'_>,
    values: &[Fraction],
) -> Result<bool, NoMemory>
    requires set { IsNumberSet unknowns.now eliminated.now }
    requires different { AllPairs (λ first second. first.unknown ≢ second.unknown) values.now }
    ensures { IfOk result (λ known. IsTrue known ↔ AreValues rows.now unknowns.now [] values.now) }
{
    let mut left = unknowns.len();
    for i in 0..values.len() {
        let value = &values[i];
        if left > 0 && unknowns[left - 1] == value.unknown {
            left -= 1;
            if !is_chosen(alloc, rows, &unknowns[..left], &values[..i], value)? {
                return Ok(false);
            }
        } else if !is_zero(value) || eliminated.contains(&value.unknown) {
            return Ok(false);
        }
    }
    Ok(left == 0)
}

/// Decides whether the elimination is complete and eliminates no unknown twice, and whether the values are chosen after
/// it for all unknowns of the rows, in their order, the last eliminated first: the whole number nearest to 0 that
/// satisfies the bounds, if there is one; else a bound, in lowest terms.
///
/// # Errors
///
/// Only if memory runs out.
pub fn are_given_values(
    alloc: Global,
    rows: &Rows,
    given: &GivenElimination,
    values: &[Fraction],
) -> Result<bool, NoMemory>
    ensures { IfOk result (λ stated. IsTrue stated ↔ AreGivenValues rows.now given.now values.now) }
{
    if !is_complete_elimination(alloc, rows, given)? {
        return Ok(false);
    }
    let unknowns = given.unknowns.as_slice();
    let Some(eliminated) = number_set(alloc, unknowns)? else {
        return Ok(false);
    };
    let valued = unknowns_of(alloc, values)?;
    let Some(known) = number_set(alloc, valued.as_slice())? else {
        return Ok(false);
    };
    if !has_each_below(greatest_width(rows.as_slice()), &known) {
        return Ok(false);
    }
    let found = rows_in(alloc, given.rows.as_slice())?;
    are_values(alloc, unknowns, &eliminated, &found, values)
}

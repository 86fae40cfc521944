//! Decides whether a value is chosen between the bounds that rows give under the values chosen before.

ghost use Rattle.std.specs.Prelude.{◌≡◌, ◌↔◌, IsTrue, IfOk, IfSome, IfNone};
ghost use Rattle.linear_arith.specs.Substitution.{ArePositive};
ghost use Rattle.linear_arith.specs.Values.{IsChosen};
ghost use Rattle.step_checks.specs.Choices.{IsBoundOf, AreBounds};
ghost use Rattle.step_checks.specs.declared.elimination.bounds.Bound.{Bound};

use crate::elimination::bounds::{Bound, is_between};
use crate::elimination::rests::rest_of;
use crate::elimination::row_list::RowList;
use crate::elimination::rows::is_without;
use base::memory::NoMemory;
use linear_arith::rows::{Fraction, LinRow};
use std::alloc::Global;

/// The bound that a row gives on an unknown. `None` if some of the other unknowns is in the row, if a number overflows
/// 128 bits while the values are substituted, or if the unknown is not left.
fn bound_of(
    alloc: Global,
    before: &[usize],
    values: &[Fraction],
    unknown: usize,
    row: &LinRow,
) -> Result<Option<Bound>, NoMemory>
    requires { ArePositive values.now }
    ensures some { IfOk result (λ made. IfSome made (IsBoundOf before.now values.now unknown row.now)) }
    ensures none { IfOk result (λ made. IfNone made ((bound : Bound) → IsBoundOf before.now values.now unknown row.now bound → ⊥)) }
{
    if !is_without(before, row) {
        return Ok(None);
    }
    let Some(rest) = rest_of(alloc, row, values)? else {
        return Ok(None);
    };
    let coefficient = rest.coefficient(unknown);
    if coefficient == 0 {
        return Ok(None);
    }
    Ok(Some(Bound {
        coefficient,
        bound: rest.bound(),
    }))
}

/// All bounds that the rows give on an unknown.
fn bounds_of(
    alloc: Global,
    rows: &RowList<'_>,
    before: &[usize],
    values: &[Fraction],
    unknown: usize,
) -> Result<Vec<Bound>, NoMemory>
    requires { ArePositive values.now }
    ensures { IfOk result (λ bounds. AreBounds rows.now before.now values.now unknown bounds.items) }
{
    let mut bounds = Vec::new(alloc);
    for i in 0..rows.len() {
        if let Some(bound) = bound_of(alloc, before, values, unknown, rows.at(i))? {
            bounds.push(bound)?;
        }
    }
    Ok(bounds)
}

/// Decides whether the value is chosen between the bounds that the rows without some unknowns give under the earlier
/// values.
pub(crate) fn is_chosen(
    alloc: Global,
    rows: &RowList<'_>,
    before: &[usize],
    values: &[Fraction],
    value: &Fraction,
) -> Result<bool, NoMemory>
    requires { ArePositive values.now }
    ensures { IfOk result (λ known. IsTrue known ↔ IsChosen rows.now before.now values.now value.now) }
{
    let bounds = bounds_of(alloc, rows, before, values, value.unknown)?;
    Ok(is_between(bounds.as_slice(), value))
}

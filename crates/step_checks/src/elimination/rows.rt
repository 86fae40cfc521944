//! Properties of single rows.

ghost use Rattle.std.specs.Prelude.{◌≡◌, ◌↔◌, pos, ◌<ℤ◌, IsTrue};
ghost use Rattle.linear_arith.specs.Inequality.{coefficient};
ghost use Rattle.linear_arith.specs.Closure.{IsWithout};
ghost use Rattle.step_checks.specs.Given.{width_of, HasNoneLeft};

use linear_arith::rows::LinRow;

/// Decides whether two rows are equal.
pub(crate) fn are_same(first: &LinRow, second: &LinRow) -> bool
    ensures { IsTrue result ↔ (first.now ≡ second.now) }
{
    first.bound() == second.bound() && first.coefficients() == second.coefficients()
}

/// The greatest number of coefficients of a row.
pub(crate) fn greatest_width(rows: &[LinRow]) -> usize
    ensures { result ≡ width_of rows.now }
{
    let mut width = 0;
    for row in rows {
        width = width.max(row.coefficients().len());
    }
    width
}

/// Decides whether none of the unknowns is in the row.
pub(crate) fn is_without(unknowns: &[usize], row: &LinRow) -> bool
    ensures { IsTrue result ↔ IsWithout unknowns.now row.now }
{
    unknowns
        .iter()
        .all(|unknown| row.coefficient(*unknown) == 0)
}

/// Decides whether the row has none of the eliminated unknowns, and a positive coefficient for the next one.
pub(crate) fn is_upper(eliminated: &[usize], unknown: usize, row: &LinRow) -> bool
    ensures { IsTrue result ↔ ((pos 0 <ℤ coefficient unknown row.now) × IsWithout eliminated.now row.now) }
{
    row.coefficient(unknown) > 0 && is_without(eliminated, row)
}

/// The same with a negative coefficient.
pub(crate) fn is_lower(eliminated: &[usize], unknown: usize, row: &LinRow) -> bool
    ensures { IsTrue result ↔ ((coefficient unknown row.now <ℤ pos 0) × IsWithout eliminated.now row.now) }
{
    row.coefficient(unknown) < 0 && is_without(eliminated, row)
}

/// Decides whether no unknown is left in the row, if it has none of these.
pub(crate) fn has_none_left(unknowns: &[usize], row: &LinRow) -> bool
    ensures { IsTrue result ↔ HasNoneLeft unknowns.now row.now }
{
    if row.is_without_unknowns() {
        return true;
    }
    !is_without(unknowns, row)
}

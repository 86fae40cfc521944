//! Substitution of values in rows.

ghost use Rattle.std.specs.Prelude.{IfOk, IfSome, IfNone};
ghost use Rattle.linear_arith.specs.Inequality.{Inequality, coefficient};
ghost use Rattle.linear_arith.specs.Rest.{IsRest};
ghost use Rattle.linear_arith.specs.Substitution.{ArePositive};

use base::memory::NoMemory;
use linear_arith::rows::{Fraction, LinRow};
use linear_arith::substitution::put_in;
use std::alloc::Global;

/// The row with all values substituted, one after another. `None` if an intermediate number overflows 128 bits.
pub(crate) fn rest_of(
    alloc: Global,
    row: &LinRow,
    values: &[Fraction],
) -> Result<Option<LinRow>, NoMemory>
    requires { ArePositive values.now }
    ensures some { IfOk result (λ made. IfSome made (IsRest row.now values.now)) }
    ensures none { IfOk result (λ made. IfNone made ((rest : Inequality) → IsRest row.now values.now rest → ⊥)) }
{
    let mut left = row.try_clone(alloc)?;
    for value in values {
        if left.coefficient(value.unknown) != 0 {
            let Some(next) = put_in(alloc, &left, value)? else {
                return Ok(None);
            };
            left = next;
        }
    }
    Ok(Some(left))
}

//! Terms as linear combinations of classes.

ghost use Rattle.std.specs.Prelude.{◌≤◌, ℕ, length, IfOk, IfSome};
ghost use Rattle.fol.specs.FormulaData.{TermData};
ghost use Rattle.tableau.specs.PoolBranches.{IsTermNumber};
ghost use Rattle.row_reasoning.specs.Sums.{IsKept};
ghost use Rattle.row_reasoning.specs.Shapes.{IsNamedUnder};
ghost use Rattle.row_reasoning.specs.Memos.{IsRight, IsFound};

use crate::memo::{Memo, keep, meet, recall};
use crate::shape::{Shape, shape_of};
use crate::sum::{LinearSum, constant, joined, multiplied, single};
use base::memory::NoMemory;
use linear_arith::numbers::fitting;
use std::alloc::Global;
use term_pool::pool::Pool;

// The sum of a term, from the sums of its parts.
#[cycle(sums)]
fn new_sum(
    alloc: Global,
    pool: &Pool,
    names: &[usize],
    memo: &mut Memo,
    number: usize,
) -> Result<Option<LinearSum>, NoMemory>
    requires term { IsTermNumber pool.now number }
    requires named { length pool.now ≤ length names.now }
    ensures is { (class : TermData → ℕ) → IsNamedUnder pool.now number class names.now → IsRight pool.now class memo.old → IfOk result (λ made. IsFound pool.now class number made memo.new) }
    ensures fits { IfOk result (λ made. IfSome made IsKept) }
{
    match shape_of(pool, number) {
        Shape::Numeral(i) => match fitting(i) {
            Some(i) => Ok(Some(constant(alloc, i))),
            None => Ok(None),
        },
        Shape::Joined(first, second, is_difference) => {
            let Some(first) = sum_of(alloc, pool, names, memo, first)? else {
                return Ok(None);
            };
            let Some(second) = sum_of(alloc, pool, names, memo, second)? else {
                return Ok(None);
            };
            joined(first, second, is_difference)
        }
        Shape::Multiple(factor, part) => {
            let Some(sum) = sum_of(alloc, pool, names, memo, part)? else {
                return Ok(None);
            };
            multiplied(alloc, factor, &sum)
        }
        Shape::Unknown => Ok(Some(single(alloc, names[number])?)),
    }
}

/// The sum of the term with this number. `None` if a number of it, or an intermediate one, overflows 128 bits.
/// `NoMemory` if memory runs out.
#[cycle(sums)]
pub(crate) fn sum_of(
    alloc: Global,
    pool: &Pool,
    names: &[usize],
    memo: &mut Memo,
    number: usize,
) -> Result<Option<LinearSum>, NoMemory>
    requires term { IsTermNumber pool.now number }
    requires named { length pool.now ≤ length names.now }
    ensures is { (class : TermData → ℕ) → IsNamedUnder pool.now number class names.now → IsRight pool.now class memo.old → IfOk result (λ made. IsFound pool.now class number made memo.new) }
    ensures fits { IfOk result (λ made. IfSome made IsKept) }
{
    if let Some(known) = recall(alloc, memo, number)? {
        return Ok(Some(known));
    }
    let is_again = meet(memo, number)?;
    if !is_again {
        return new_sum(alloc, pool, names, memo, number);
    }
    let found = new_sum(alloc, pool, names, memo, number)?;
    keep(alloc, memo, number, &found)?;
    Ok(found)
}

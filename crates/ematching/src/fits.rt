//! Matching of a pattern with a target term.

ghost use Rattle.std.specs.Prelude.{[], IfOk};
ghost use Rattle.tableau.specs.PoolBranches.{IsTermNumber};
ghost use Rattle.ematching.specs.Fits.{IsPair, IsFilling, AreTargets, IsFitAnswer, IsApartOrNot, IsTurn};

use crate::node::{is_bound, is_clear, refilled, wait_for_pairs};
use base::memory::NoMemory;
use std::alloc::Global;
use tableau::log::Log;
use term_pool::node::are_one;
use term_pool::pool::Pool;

// Decomposes a pattern and a target into pairs of parts, which are added to the waiting ones. Returns false if no
// substitution makes the pattern the target.
fn take_apart(
    alloc: Global,
    pool: &Pool,
    bound: &[u32],
    waiting: &mut Vec<(usize, usize)>,
    pattern: usize,
    target: usize,
) -> Result<bool, NoMemory>
    requires { IsPair pool.now pattern target }
    ensures { IfOk result (λ r. IsApartOrNot r pool.now bound.now pattern target waiting.old.items waiting.new.items) }
{
    pool.one_number();
    let Some(left) = pool.node(pattern) else {
        return Ok(false);
    };
    let Some(right) = pool.node(target) else {
        return Ok(false);
    };
    if is_bound(bound, left) {
        return Ok(true);
    }
    if !are_one(refilled(left, right), right) {
        return Ok(false);
    }
    let clear = is_clear(alloc, pool, bound, left)?;
    if !clear {
        return Ok(false);
    }
    wait_for_pairs(waiting, left, right)?;
    Ok(true)
}

// Records the target of a pattern. Returns false if another target is recorded, or if no substitution makes the
// pattern the target.
fn take_turn(
    alloc: Global,
    pool: &Pool,
    bound: &[u32],
    values: &mut Log,
    waiting: &mut Vec<(usize, usize)>,
    pattern: usize,
    target: usize,
) -> Result<bool, NoMemory>
    requires pair { IsPair pool.now pattern target }
    requires targets { AreTargets pool.now values.old }
    ensures { IfOk result (λ r. IsTurn r pool.now bound.now pattern target values.old waiting.old.items values.new waiting.new.items) }
{
    pool.one_number();
    if let Some(value) = values.value(pattern) {
        if value == target {
            return Ok(true);
        }
        return Ok(false);
    }
    let apart = take_apart(alloc, pool, bound, waiting, pattern, target)?;
    if !apart {
        return Ok(false);
    }
    values.write(pool.len(), pattern, target)?;
    Ok(true)
}

/// Decides whether some substitution that is consistent with the recorded matches makes the pattern the target. If so,
/// records the targets of the pattern and its parts; if not, it may still have recorded more matches than before.
pub(crate) fn fits(
    alloc: Global,
    pool: &Pool,
    bound: &[u32],
    values: &mut Log,
    pattern: usize,
    target: usize,
) -> Result<bool, NoMemory>
    requires pattern { IsTermNumber pool.now pattern }
    requires target { IsTermNumber pool.now target }
    requires filling { IsFilling pool.now bound.now values.old [] }
    ensures { IfOk result (IsFitAnswer pool.now bound.now pattern target values.old values.new) }
{
    pool.one_number();
    let mut waiting = Vec::new(alloc);
    waiting.push((pattern, target))?;
    while let Some((pattern, target)) = waiting.pop() {
        let kept = take_turn(alloc, pool, bound, values, &mut waiting, pattern, target)?;
        if !kept {
            return Ok(false);
        }
    }
    Ok(true)
}

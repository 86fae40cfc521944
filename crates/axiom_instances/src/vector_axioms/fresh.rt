//! The least variable that is free in neither of two terms.

ghost use Rattle.std.specs.Prelude.{◌≡◌, not, ◌||◌, IfOk, MatchOption};
ghost use Rattle.substitution.specs.Free.{free_in_term};
ghost use Rattle.axiom_instances.specs.Numbers.{IsTermNumber, term_at};
ghost use Rattle.axiom_instances.specs.Fresh.{HasNoFresh, IsFresh};

use base::memory::NoMemory;
use std::alloc::Global;
use term_pool::pool::Pool;
use term_pool::variables::is_free;

// Decides whether the variable is free in one of the terms.
fn is_in_either(
    alloc: Global,
    pool: &Pool,
    variable: u32,
    left: usize,
    right: usize,
) -> Result<bool, NoMemory>
    requires left { IsTermNumber pool.now left }
    requires right { IsTermNumber pool.now right }
    ensures { IfOk result (λ found. found ≡ (free_in_term variable (term_at pool.now left) || free_in_term variable (term_at pool.now right))) }
{
    let in_left = is_free(alloc, pool, variable, left)?;
    if in_left {
        return Ok(true);
    }
    let in_right = is_free(alloc, pool, variable, right)?;
    Ok(in_right)
}

/// Finds the least number of a variable that is free in neither term; none if each 32-bit number is that of a variable
/// that is free in a term. It walks the terms once for each variable below the result.
pub fn least_fresh(
    alloc: Global,
    pool: &Pool,
    left: usize,
    right: usize,
) -> Result<Option<u32>, NoMemory>
    requires left { IsTermNumber pool.now left }
    requires right { IsTermNumber pool.now right }
    ensures { IfOk result (λ found. MatchOption found (HasNoFresh (term_at pool.now left) (term_at pool.now right)) (IsFresh (term_at pool.now left) (term_at pool.now right))) }
{
    let mut variable: u32 = 0;
    loop {
        let found = is_in_either(alloc, pool, variable, left, right)?;
        if !found {
            return Ok(Some(variable));
        }
        if variable == u32::MAX {
            return Ok(None);
        }
        variable += 1;
    }
}

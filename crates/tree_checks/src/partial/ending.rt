//! The end of a trace.

ghost use Rattle.std.specs.Prelude.{◌↔◌, List, [], IsTrue, IfOk};
ghost use Rattle.fol.specs.declared.shapes.Shape.{Shape};
ghost use Rattle.step_checks.specs.Links.{AreNamed};
ghost use Rattle.tree_checks.specs.Partial.{IsChainNumbered, EndsAmong, ArePartial};
ghost use Rattle.tree_checks.specs.Walks.{opened, IsWalk};

use crate::partial::applications::GivenChain;
use crate::partial::walk::{Walk, read};
use base::memory::NoMemory;
use std::alloc::Global;
use step_checks::closings::closing::is_closing_due;
use term_pool::pool::Pool;

// Decides whether the closing would close the current branch, and its explanation has at least as many steps as are to
// count.
fn ends_among(
    alloc: Global,
    pool: &Pool,
    walk: &mut Walk,
    given: &GivenChain,
) -> Result<bool, NoMemory>
    requires walk { IsWalk pool.now walk.old }
    requires named { AreNamed pool.now given.now.closing.chain.items }
    ensures { (shapes : List Shape) → IfOk result (λ known. IsTrue known ↔ EndsAmong shapes pool.now (opened pool.now walk.old) given.now) }
{
    if !walk.is_open {
        return Ok(false);
    }
    if given.links > given.closing.chain.len() {
        return Ok(false);
    }
    read(alloc, pool, walk)?;
    let known = is_closing_due(
        alloc,
        pool,
        &walk.branch,
        walk.trees.as_slice(),
        &given.closing,
    )?;
    Ok(known)
}

/// Decides whether a trace may end here, with `left` steps left: with none, or with steps of the explanation of a
/// closing of the current branch. The state of `walk` is right for the pool, and the numbers in `chain` are those of
/// formulas.
///
/// # Errors
///
/// Only if memory runs out.
pub fn ends(
    alloc: Global,
    pool: &Pool,
    walk: &mut Walk,
    chain: &Option<GivenChain>,
    left: u64,
) -> Result<bool, NoMemory>
    requires walk { IsWalk pool.now walk.old }
    requires named { IsChainNumbered pool.now chain.now }
    ensures { (shapes : List Shape) → IfOk result (λ known. IsTrue known ↔ ArePartial shapes pool.now (opened pool.now walk.old) [] chain.now left) }
{
    let Some(given) = chain else {
        return Ok(left == 0);
    };
    if given.links as u64 != left {
        return Ok(false);
    }
    let known = ends_among(alloc, pool, walk, given)?;
    Ok(known)
}

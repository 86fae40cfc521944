//! One application after another.

ghost use Rattle.std.specs.Prelude.{◌≡◌, OnOk, IfOk, MatchBool};
ghost use Rattle.term_pool.specs.Pools.{Extends};
ghost use Rattle.axiom_instances.specs.StructRows.{HasFewFields};
ghost use Rattle.step_checks.specs.Links.{AreNamed};
ghost use Rattle.tree_checks.specs.Steps.{HasNumbers};
ghost use Rattle.tree_checks.specs.Partial.{steps_of, IsNumbered, IsGrownBy, IsClosedBy, IsTakenBy, IsNotTakenBy};
ghost use Rattle.tree_checks.specs.Walks.{opened, IsWalk};
ghost use Rattle.tree_checks.specs.declared.partial.applications.GivenApplication.TheVariants.{Grown, Closed};

use crate::partial::applications::{GivenApplication, GivenExtension};
use crate::partial::timely::is_due_by;
use crate::partial::walk::{Walk, advance, read, resume};
use base::memory::NoMemory;
use fol::shapes::Shapes;
use search::trees::application::Closing;
use std::alloc::Global;
use step_checks::closings::closing::is_closing_due;
use term_pool::pool::Pool;

/// The number of steps of the application: a closing is none, but each step of its explanation is one.
pub(crate) fn steps_of(application: &GivenApplication) -> u64
    ensures { result ≡ steps_of application.now }
{
    match application {
        GivenApplication::Grown(_) => 1,
        GivenApplication::Closed(closing) => closing.chain.len() as u64,
    }
}

// Continues with the branches that the extension leaves; returns whether it is due.
fn grow(
    alloc: Global,
    pool: &mut Pool,
    shapes: &Shapes,
    walk: &mut Walk,
    given: &GivenExtension,
) -> Result<bool, NoMemory>
    requires few { HasFewFields shapes.now }
    requires walk { IsWalk pool.old walk.old }
    requires numbers { HasNumbers pool.old given.now.extension }
    ensures extends { Extends pool.old pool.new }
    ensures walk { OnOk result (IsWalk pool.new walk.new) }
    ensures exact { IfOk result (λ known. MatchBool known (IsGrownBy shapes.now pool.old (opened pool.old walk.old) given.now (opened pool.new walk.new)) (IsNotTakenBy shapes.now pool.old (opened pool.old walk.old) (Grown given.now))) }
{
    if !walk.is_open {
        return Ok(false);
    }
    let due = is_due_by(alloc, pool, shapes, &walk.branch, &mut walk.kept, given)?;
    if !due {
        return Ok(false);
    }
    let known = advance(alloc, pool, walk, &given.extension)?;
    Ok(known)
}

// Continues with the next branch; returns whether the closing closes the current one.
fn close(
    alloc: Global,
    pool: &Pool,
    shapes: &Shapes,
    walk: &mut Walk,
    closing: &Closing,
) -> Result<bool, NoMemory>
    requires walk { IsWalk pool.now walk.old }
    requires named { AreNamed pool.now closing.now.chain.items }
    ensures walk { OnOk result (IsWalk pool.now walk.new) }
    ensures exact { IfOk result (λ known. MatchBool known (IsClosedBy shapes.now pool.now (opened pool.now walk.old) closing.now (opened pool.now walk.new)) (IsNotTakenBy shapes.now pool.now (opened pool.now walk.old) (Closed closing.now))) }
{
    if !walk.is_open {
        return Ok(false);
    }
    read(alloc, pool, walk)?;
    let closes = is_closing_due(alloc, pool, &walk.branch, walk.trees.as_slice(), closing)?;
    if !closes {
        return Ok(false);
    }
    resume(alloc, pool, walk)?;
    Ok(true)
}

/// Continues with the branches that the application leaves open, if it is due, with its grounds, on the current branch;
/// returns whether it is. The state of `walk` is right for the pool, the numbers in `application` are those of formulas and
/// terms, and each struct shape has fewer than 2^32 fields.
///
/// # Errors
///
/// Only if memory runs out.
pub fn take(
    alloc: Global,
    pool: &mut Pool,
    shapes: &Shapes,
    walk: &mut Walk,
    application: &GivenApplication,
) -> Result<bool, NoMemory>
    requires few { HasFewFields shapes.now }
    requires walk { IsWalk pool.old walk.old }
    requires numbers { IsNumbered pool.old application.now }
    ensures extends { Extends pool.old pool.new }
    ensures walk { OnOk result (IsWalk pool.new walk.new) }
    ensures exact { IfOk result (λ known. MatchBool known (IsTakenBy shapes.now pool.old (opened pool.old walk.old) application.now (opened pool.new walk.new)) (IsNotTakenBy shapes.now pool.old (opened pool.old walk.old) application.now)) }
{
    match application {
        GivenApplication::Grown(given) => grow(alloc, pool, shapes, walk, given),
        GivenApplication::Closed(closing) => close(alloc, pool, shapes, walk, closing),
    }
}

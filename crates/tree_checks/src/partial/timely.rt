//! Decides whether a given application is due, with the grounds on which it may come where it is.

ghost use Rattle.std.specs.Prelude.{◌↔◌, IsTrue, OnOk, IfOk};
ghost use Rattle.term_pool.specs.Pools.{Extends};
ghost use Rattle.tableau.specs.PoolBranches.{branch_in, IsTermNumber, IsOver};
ghost use Rattle.tableau.specs.Terms.{term_at};
ghost use Rattle.axiom_instances.specs.StructRows.{HasFewFields};
ghost use Rattle.tree_checks.specs.Late.{IsLateBy};
ghost use Rattle.tree_checks.specs.Bounds.{IsBoundBy};
ghost use Rattle.tree_checks.specs.Kept.{IsKept};
ghost use Rattle.tree_checks.specs.Steps.{HasNumbers};
ghost use Rattle.tree_checks.specs.Timely.{IsSplitBy, IsCutBy, IsPutBy, IsTimely, IsDueBy};

use crate::bounds::bound::{BoundGrounds, is_bound_by};
use crate::grown::growing::is_growing;
use crate::grown::keeping::Kept;
use crate::late::is_late_by;
use crate::late::splits::is_range_entry;
use crate::partial::applications::{GivenExtension, Grounds};
use base::memory::NoMemory;
use fol::shapes::Shapes;
use search::trees::application::{Extension, Reason};
use search::values::OpenValues;
use std::alloc::Global;
use tableau::branch::PoolBranch;
use term_pool::pool::Pool;

// Decides whether a late application may come on the branch, by the values.
fn is_late(
    alloc: Global,
    pool: &mut Pool,
    shapes: &Shapes,
    branch: &PoolBranch,
    kept: &mut Kept,
    values: &OpenValues,
) -> Result<bool, NoMemory>
    requires few { HasFewFields shapes.now }
    requires over { IsOver pool.old branch.now }
    requires kept { IsKept pool.old branch.now.entries kept.old }
    ensures extends { Extends pool.old pool.new }
    ensures kept { OnOk result (IsKept pool.new branch.now.entries kept.new) }
    ensures exact { IfOk result (λ known. IsTrue known ↔ IsLateBy shapes.now pool.old (branch_in pool.old branch.now) values.now) }
{
    kept.state.follow_classes(alloc, pool, branch)?;
    let known = is_late_by(
        alloc,
        pool,
        shapes,
        branch,
        &kept.state.classes,
        &mut kept.variables,
        values,
    )?;
    Ok(known)
}

// Decides whether the term may be split at the number, by the grounds.
fn is_bound(
    alloc: Global,
    pool: &mut Pool,
    shapes: &Shapes,
    branch: &PoolBranch,
    kept: &mut Kept,
    term: usize,
    number: i128,
    grounds: &BoundGrounds,
) -> Result<bool, NoMemory>
    requires few { HasFewFields shapes.now }
    requires over { IsOver pool.old branch.now }
    requires kept { IsKept pool.old branch.now.entries kept.old }
    requires term { IsTermNumber pool.old term }
    ensures extends { Extends pool.old pool.new }
    ensures kept { OnOk result (IsKept pool.new branch.now.entries kept.new) }
    ensures exact { IfOk result (λ known. IsTrue known ↔ IsBoundBy shapes.now pool.old (branch_in pool.old branch.now) (term_at pool.old term) number grounds.now.values grounds.now.elimination) }
{
    kept.state.follow_classes(alloc, pool, branch)?;
    let known = is_bound_by(
        alloc,
        pool,
        shapes,
        branch,
        &kept.state.classes,
        &mut kept.variables,
        term,
        number,
        grounds,
    )?;
    Ok(known)
}

// Decides whether a split at the entry with this number may come now: at an instance of the axiom on ranges, or as a
// late application.
fn is_split_timely(
    alloc: Global,
    pool: &mut Pool,
    shapes: &Shapes,
    branch: &PoolBranch,
    kept: &mut Kept,
    entry: usize,
    grounds: &Grounds,
) -> Result<bool, NoMemory>
    requires few { HasFewFields shapes.now }
    requires over { IsOver pool.old branch.now }
    requires kept { IsKept pool.old branch.now.entries kept.old }
    ensures extends { Extends pool.old pool.new }
    ensures kept { OnOk result (IsKept pool.new branch.now.entries kept.new) }
    ensures exact { IfOk result (λ known. IsTrue known ↔ IsSplitBy shapes.now pool.old (branch_in pool.old branch.now) entry grounds.now) }
{
    match grounds {
        Grounds::Nothing => {
            let known = is_range_entry(alloc, pool, shapes, branch, entry)?;
            Ok(known)
        }
        Grounds::Late(values) => is_late(alloc, pool, shapes, branch, kept, values),
        Grounds::Bound(_) => Ok(false),
    }
}

// Decides whether a cut may come now: as a late application.
fn is_cut_timely(
    alloc: Global,
    pool: &mut Pool,
    shapes: &Shapes,
    branch: &PoolBranch,
    kept: &mut Kept,
    grounds: &Grounds,
) -> Result<bool, NoMemory>
    requires few { HasFewFields shapes.now }
    requires over { IsOver pool.old branch.now }
    requires kept { IsKept pool.old branch.now.entries kept.old }
    ensures extends { Extends pool.old pool.new }
    ensures kept { OnOk result (IsKept pool.new branch.now.entries kept.new) }
    ensures exact { IfOk result (λ known. IsTrue known ↔ IsCutBy shapes.now pool.old (branch_in pool.old branch.now) grounds.now) }
{
    match grounds {
        Grounds::Late(values) => is_late(alloc, pool, shapes, branch, kept, values),
        Grounds::Nothing | Grounds::Bound(_) => Ok(false),
    }
}

// Decides whether a bound split of the term at the number may come now.
fn is_put_timely(
    alloc: Global,
    pool: &mut Pool,
    shapes: &Shapes,
    branch: &PoolBranch,
    kept: &mut Kept,
    term: usize,
    number: i128,
    grounds: &Grounds,
) -> Result<bool, NoMemory>
    requires few { HasFewFields shapes.now }
    requires over { IsOver pool.old branch.now }
    requires kept { IsKept pool.old branch.now.entries kept.old }
    requires term { IsTermNumber pool.old term }
    ensures extends { Extends pool.old pool.new }
    ensures kept { OnOk result (IsKept pool.new branch.now.entries kept.new) }
    ensures exact { IfOk result (λ known. IsTrue known ↔ IsPutBy shapes.now pool.old (branch_in pool.old branch.now) (term_at pool.old term) number grounds.now) }
{
    match grounds {
        Grounds::Bound(bound) => is_bound(alloc, pool, shapes, branch, kept, term, number, bound),
        Grounds::Nothing | Grounds::Late(_) => Ok(false),
    }
}

// Decides whether the application may come now.
fn is_timely(
    alloc: Global,
    pool: &mut Pool,
    shapes: &Shapes,
    branch: &PoolBranch,
    kept: &mut Kept,
    extension: &Extension,
    grounds: &Grounds,
) -> Result<bool, NoMemory>
    requires few { HasFewFields shapes.now }
    requires over { IsOver pool.old branch.now }
    requires kept { IsKept pool.old branch.now.entries kept.old }
    requires numbers { HasNumbers pool.old extension.now }
    ensures extends { Extends pool.old pool.new }
    ensures kept { OnOk result (IsKept pool.new branch.now.entries kept.new) }
    ensures exact { IfOk result (λ known. IsTrue known ↔ IsTimely shapes.now pool.old (branch_in pool.old branch.now) extension.now.reason grounds.now) }
{
    match extension.reason {
        Reason::Parts(_) | Reason::Name(_, _) | Reason::Instance(_, _) | Reason::Axiom(_) => {
            Ok(true)
        }
        Reason::Split(entry) => {
            is_split_timely(alloc, pool, shapes, branch, kept, entry, grounds)
        }
        Reason::Cut(_, _) => is_cut_timely(alloc, pool, shapes, branch, kept, grounds),
        Reason::Bound(_, term, number) => {
            is_put_timely(alloc, pool, shapes, branch, kept, term, number, grounds)
        }
    }
}

/// Decides whether the application is due on the branch, and may come now by its grounds.
pub(crate) fn is_due_by(
    alloc: Global,
    pool: &mut Pool,
    shapes: &Shapes,
    branch: &PoolBranch,
    kept: &mut Kept,
    given: &GivenExtension,
) -> Result<bool, NoMemory>
    requires few { HasFewFields shapes.now }
    requires over { IsOver pool.old branch.now }
    requires kept { IsKept pool.old branch.now.entries kept.old }
    requires numbers { HasNumbers pool.old given.now.extension }
    ensures extends { Extends pool.old pool.new }
    ensures kept { OnOk result (IsKept pool.new branch.now.entries kept.new) }
    ensures exact { IfOk result (λ known. IsTrue known ↔ IsDueBy shapes.now pool.old (branch_in pool.old branch.now) given.now) }
{
    let growing = is_growing(alloc, pool, shapes, branch, kept, &given.extension)?;
    if !growing {
        return Ok(false);
    }
    pool.one_number();
    let known = is_timely(
        alloc,
        pool,
        shapes,
        branch,
        kept,
        &given.extension,
        &given.grounds,
    )?;
    Ok(known)
}

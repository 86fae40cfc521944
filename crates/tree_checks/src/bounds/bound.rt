//! Decides whether a bound split on a number may be applied.

ghost use Rattle.std.specs.Prelude.{◌≤◌, ◌^◌, ◌↔◌, IsTrue, OnOk, IfOk};
ghost use Rattle.term_pool.specs.Pools.{Extends};
ghost use Rattle.tableau.specs.PoolBranches.{branch_in, IsTermNumber, IsOver};
ghost use Rattle.tableau.specs.Terms.{term_at, AreClassesOf};
ghost use Rattle.axiom_instances.specs.StructRows.{HasFewFields};
ghost use Rattle.tableau.specs.Variables.{AreAbove};
ghost use Rattle.tree_checks.specs.Bounds.{IsBoundBy};
ghost use Rattle.tree_checks.specs.Firsts.{AskForBound};

use crate::bounds::chosen::are_chosen;
use crate::bounds::firsts::{is_first_named, name_of};
use base::memory::NoMemory;
use congruence_closure::branch_classes::BranchClasses;
use fol::shapes::Shapes;
use search::values::OpenValues;
use std::alloc::Global;
use step_checks::elimination::GivenElimination;
use step_checks::met_rows::rows::meets_rows;
use step_checks::values::rows::valued_rows;
use strategy::saturation::is_saturated;
use tableau::branch::PoolBranch;
use tableau::names::variables::Variables;
use term_pool::pool::Pool;

/// The grounds of a bound split on a number.
#[derive(Drop)]
pub struct BoundGrounds {
    /// The values chosen after the elimination, in the order in which they were chosen, with their classes.
    pub values: OpenValues,
    /// An elimination of the branch's rows over these classes.
    pub elimination: GivenElimination,
}

// Decides whether a number exceeds all numbers of variables.
fn is_past(number: u64) -> bool
    ensures { IsTrue result ↔ (2 ^ 32 ≤ number) }
{
    number > u64::from(u32::MAX)
}

// Decides whether the values that the elimination gives for the rows of the branch require the bound.
fn ask_for_bound(
    alloc: Global,
    pool: &Pool,
    branch: &PoolBranch,
    classes: &BranchClasses,
    term: usize,
    number: i128,
    grounds: &BoundGrounds,
) -> Result<bool, NoMemory>
    requires over { IsOver pool.now branch.now }
    requires classes { AreClassesOf pool.now branch.now classes.now }
    requires term { IsTermNumber pool.now term }
    ensures { IfOk result (λ known. IsTrue known ↔ AskForBound pool.now (branch_in pool.now branch.now) (term_at pool.now term) number grounds.now.values grounds.now.elimination) }
{
    pool.one_number();
    let Some(made) = valued_rows(alloc, pool, branch, classes, &grounds.values)? else {
        return Ok(false);
    };
    let values = grounds.values.values.as_slice();
    let met = meets_rows(alloc, &made.rows.rows, values)?;
    if !met {
        return Ok(false);
    }
    let names = made.names.as_slice();
    let name = name_of(pool, branch, names, term);
    let first = is_first_named(
        alloc,
        pool,
        branch,
        names,
        &made.rows.classes,
        name,
        number,
        values,
    )?;
    if !first {
        return Ok(false);
    }
    let most = grounds.values.classes.len();
    let chosen = are_chosen(alloc, most, &made.rows.rows, &grounds.elimination, values)?;
    Ok(chosen)
}

/// Decides whether the term may be split at the number (at most `number`, or at least the next one) by the grounds:
/// nothing else is due on the branch and nothing closes it; the elimination is a complete one of the branch's rows over
/// the classes of the values; the values are chosen after it and satisfy the rows; and the first value that belongs to
/// a number and is not whole is that of the term's class, and lies between `number` and the next one. `classes` are
/// those of the branch, `variables` is right for it, and each struct shape has fewer than 2^32 fields. The result is
/// false if no variable number is left above those of the branch.
///
/// # Errors
///
/// Only if memory runs out.
pub fn is_bound_by(
    alloc: Global,
    pool: &mut Pool,
    shapes: &Shapes,
    branch: &PoolBranch,
    classes: &BranchClasses,
    variables: &mut Variables,
    term: usize,
    number: i128,
    grounds: &BoundGrounds,
) -> Result<bool, NoMemory>
    requires few { HasFewFields shapes.now }
    requires over { IsOver pool.old branch.now }
    requires classes { AreClassesOf pool.old branch.now classes.now }
    requires above { AreAbove pool.old branch.now.entries variables.old }
    requires term { IsTermNumber pool.old term }
    ensures extends { Extends pool.old pool.new }
    ensures above { OnOk result (AreAbove pool.new branch.now.entries variables.new) }
    ensures exact { IfOk result (λ known. IsTrue known ↔ IsBoundBy shapes.now pool.old (branch_in pool.old branch.now) (term_at pool.old term) number grounds.now.values grounds.now.elimination) }
{
    let above = variables.above_all(pool, branch)?;
    let crowded = is_past(above);
    if crowded {
        return Ok(false);
    }
    let triggered = ask_for_bound(alloc, pool, branch, classes, term, number, grounds)?;
    if !triggered {
        return Ok(false);
    }
    let saturated = is_saturated(alloc, pool, shapes, branch)?;
    Ok(saturated)
}

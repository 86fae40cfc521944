//! The grounds on which an application may come on a branch.

ghost use Rattle.std.specs.Prelude.{◌≡◌, IfOk, IfSome};
ghost use Rattle.term_pool.specs.Pools.{Extends};
ghost use Rattle.tableau.specs.PoolBranches.{branch_in, IsOver};
ghost use Rattle.axiom_instances.specs.StructRows.{HasFewFields};
ghost use Rattle.tree_checks.specs.Partial.{application_of};
ghost use Rattle.step_checks.specs.Rows.{IsMet};

use crate::bounds::bound::BoundGrounds;
use crate::late::splits::is_range_entry;
use crate::partial::applications::{GivenApplication, GivenExtension, Grounds};
use crate::texts::elimination::elimination_of;
use base::memory::NoMemory;
use closing_rules::solving::elimination::{Elimination, eliminate};
use fol::shapes::Shapes;
use linear_arith::rows::{LinAnswer, Rows};
use row_reasoning::rows::BranchRows;
use search::trees::application::{PoolApplication, Reason};
use search::values::OpenValues;
use std::alloc::Global;
use tableau::branch::PoolBranch;
use tableau::state::BranchState;
use term_pool::pool::Pool;

// Values of the rows of a branch, with these rows.
#[derive(Drop)]
struct Solved {
    values: OpenValues,
    rows: Rows,
}

// Values that satisfy the rows of the branch. `None` if an elimination finds none.
fn values_of_rows(
    alloc: Global,
    pool: &Pool,
    branch: &PoolBranch,
) -> Result<Option<Solved>, NoMemory>
    requires { IsOver pool.now branch.now }
    ensures { IfOk result (λ made. IfSome made (λ s. IsMet pool.now (branch_in pool.now branch.now) s.values)) }
{
    let mut state = BranchState::new(alloc);
    state.follow_classes(alloc, pool, branch)?;
    let Elimination {
        names,
        rows,
        answer,
    } = eliminate(alloc, pool, branch, &state.classes)?;
    let LinAnswer::Feasible(values) = answer else {
        return Ok(None);
    };
    let BranchRows {
        classes,
        rows,
        origins: _,
    } = rows;
    let classes = Vec::from_slice(alloc, classes.as_slice())?;
    let values = OpenValues {
        names,
        classes,
        values,
    };
    Ok(Some(Solved { values, rows }))
}

// The grounds of a late application on the branch.
fn late_grounds(
    alloc: Global,
    pool: &Pool,
    branch: &PoolBranch,
) -> Result<Option<Grounds>, NoMemory>
    requires { IsOver pool.now branch.now }
{
    match values_of_rows(alloc, pool, branch)? {
        Some(found) => {
            let Solved { values, rows: _ } = found;
            Ok(Some(Grounds::Late(values)))
        }
        None => Ok(None),
    }
}

// The grounds of a bound on the branch.
fn bound_grounds(
    alloc: Global,
    pool: &Pool,
    branch: &PoolBranch,
) -> Result<Option<Grounds>, NoMemory>
    requires { IsOver pool.now branch.now }
{
    let Some(found) = values_of_rows(alloc, pool, branch)? else {
        return Ok(None);
    };
    let Solved { values, rows } = found;
    match elimination_of(alloc, &rows, values.values.as_slice())? {
        Some(elimination) => Ok(Some(Grounds::Bound(BoundGrounds {
            values,
            elimination,
        }))),
        None => Ok(None),
    }
}

// The grounds of an application for this reason on the branch. `None` if no grounds are found.
fn grounds_of(
    alloc: Global,
    pool: &mut Pool,
    shapes: &Shapes,
    branch: &PoolBranch,
    reason: Reason,
) -> Result<Option<Grounds>, NoMemory>
    requires few { HasFewFields shapes.now }
    requires over { IsOver pool.old branch.now }
    ensures { Extends pool.old pool.new }
{
    match reason {
        Reason::Parts(_) | Reason::Name(_, _) | Reason::Instance(_, _) | Reason::Axiom(_) => {
            Ok(Some(Grounds::Nothing))
        }
        Reason::Split(entry) => {
            if is_range_entry(alloc, pool, shapes, branch, entry)? {
                return Ok(Some(Grounds::Nothing));
            }
            late_grounds(alloc, pool, branch)
        }
        Reason::Cut(_, _) => late_grounds(alloc, pool, branch),
        Reason::Bound(_, _, _) => bound_grounds(alloc, pool, branch),
    }
}

/// Returns the application with grounds on which it may come on the branch. `None` if no grounds are found.
pub(crate) fn with_grounds(
    alloc: Global,
    pool: &mut Pool,
    shapes: &Shapes,
    branch: &PoolBranch,
    application: PoolApplication,
) -> Result<Option<GivenApplication>, NoMemory>
    requires few { HasFewFields shapes.now }
    requires over { IsOver pool.old branch.now }
    ensures extends { Extends pool.old pool.new }
    ensures same { IfOk result (λ made. IfSome made (λ given. application_of given ≡ application)) }
{
    match application {
        PoolApplication::Closed(closing) => Ok(Some(GivenApplication::Closed(closing))),
        PoolApplication::Grown(extension) => {
            match grounds_of(alloc, pool, shapes, branch, extension.reason)? {
                Some(grounds) => Ok(Some(GivenApplication::Grown(GivenExtension {
                    extension,
                    grounds,
                }))),
                None => Ok(None),
            }
        }
    }
}

//! Decides whether the extension of a step is due, whatever the time.

ghost use Rattle.std.specs.Prelude.{◌↔◌, IsTrue, OnOk, IfOk};
ghost use Rattle.term_pool.specs.Pools.{Extends};
ghost use Rattle.tableau.specs.PoolBranches.{branch_in, IsOver};
ghost use Rattle.axiom_instances.specs.StructRows.{HasFewFields};
ghost use Rattle.tree_checks.specs.Kept.{IsKept};
ghost use Rattle.tree_checks.specs.Steps.{HasNumbers, IsGrowing};

use crate::grown::axiom::is_axiom_growing;
use crate::grown::bound::are_bounds_growing;
use crate::grown::cut::is_cut_growing;
use crate::grown::instance::is_instance_growing;
use crate::grown::keeping::Kept;
use crate::grown::naming::is_name_growing;
use crate::grown::plain::{are_cases_growing, are_parts_growing};
use base::memory::NoMemory;
use fol::shapes::Shapes;
use search::trees::application::{Extension, Reason};
use std::alloc::Global;
use tableau::branch::PoolBranch;
use term_pool::pool::Pool;

/// Decides whether formulas may be added to the branch for the given reason, with their generation. The numbers in
/// `extension` are those of formulas and terms, and each struct shape has fewer than 2^32 fields.
///
/// # Errors
///
/// Only if memory runs out.
pub fn is_growing(
    alloc: Global,
    pool: &mut Pool,
    shapes: &Shapes,
    branch: &PoolBranch,
    kept: &mut Kept,
    extension: &Extension,
) -> Result<bool, NoMemory>
    requires few { HasFewFields shapes.now }
    requires over { IsOver pool.old branch.now }
    requires kept { IsKept pool.old branch.now.entries kept.old }
    requires numbers { HasNumbers pool.old extension.now }
    ensures extends { Extends pool.old pool.new }
    ensures kept { OnOk result (IsKept pool.new branch.now.entries kept.new) }
    ensures exact { IfOk result (λ known. IsTrue known ↔ IsGrowing shapes.now pool.old (branch_in pool.old branch.now) extension.now) }
{
    match extension.reason {
        Reason::Parts(entry) => are_parts_growing(alloc, pool, branch, extension, entry),
        Reason::Name(entry, variable) => {
            is_name_growing(alloc, pool, branch, kept, extension, entry, variable)
        }
        Reason::Instance(entry, term) => {
            is_instance_growing(alloc, pool, branch, kept, extension, entry, term)
        }
        Reason::Axiom(name) => {
            is_axiom_growing(alloc, pool, shapes, branch, kept, extension, name)
        }
        Reason::Split(entry) => are_cases_growing(alloc, pool, branch, extension, entry),
        Reason::Cut(left, right) => {
            is_cut_growing(alloc, pool, branch, kept, extension, left, right)
        }
        Reason::Bound(entry, term, number) => {
            are_bounds_growing(pool, branch, extension, entry, term, number)
        }
    }
}

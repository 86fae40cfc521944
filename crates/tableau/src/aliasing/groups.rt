//! Groups of aliasing memories and vectors: those of one class, and those related by updates (`Store`, `Set`, `Push`,
//! `Pop`).

ghost use Rattle.std.specs.Prelude.{IfOk};
ghost use Rattle.tableau.specs.PoolBranches.{branch_in, IsOver};
ghost use Rattle.tableau.specs.Terms.{AreBranchTerms, AreClassesOf};
ghost use Rattle.tableau.specs.Groups.{AreGroups};

use crate::aliasing::joins::{join_changed, join_class};
use crate::branch::PoolBranch;
use base::cycles::components::component_roots;
use base::cycles::graph::Graph;
use base::memory::NoMemory;
use congruence_closure::branch_classes::BranchClasses;
use indexmap::IndexMap;
use std::alloc::Global;
use term_pool::pool::Pool;

/// Returns a group number for each number of the pool: two terms of the branch have the same one exactly when they
/// alias. `terms` are the numbers of its terms, and `classes` are the branch's classes. It takes time linear in the
/// pool's length.
pub fn groups(
    alloc: Global,
    pool: &Pool,
    branch: &PoolBranch,
    classes: &BranchClasses,
    terms: &[usize],
) -> Result<Vec<usize>, NoMemory>
    requires over { IsOver pool.now branch.now }
    requires classes { AreClassesOf pool.now branch.now classes.now }
    requires terms { AreBranchTerms pool.now (branch_in pool.now branch.now) terms.now }
    ensures { IfOk result (λ groups. AreGroups pool.now (branch_in pool.now branch.now) groups.items) }
{
    pool.one_number();
    classes.exact();
    let mut graph = Graph::new(alloc, pool.len())?;
    let mut firsts = IndexMap::new(alloc);
    for number in terms {
        join_changed(&mut graph, pool, *number)?;
        let class = classes.class(*number);
        join_class(&mut graph, &mut firsts, class, *number)?;
    }
    component_roots(alloc, &graph)
}

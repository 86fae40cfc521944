//! Decisions on two numbers with equal values in a solution of the rows.

ghost use Rattle.std.specs.Prelude.{IfOk, IfSome};
ghost use Rattle.term_pool.specs.Pools.{Extends};
ghost use Rattle.tableau.specs.PoolBranches.{branch_in, IsOver};
ghost use Rattle.tableau.specs.Terms.{AreClassesOf};
ghost use Rattle.axiom_strategy.specs.Orders.{IsOrder, IsWith, IsInGroup, AreOfBranch, IsFreshPair};

use crate::decisions::numbers::number_marks;
use crate::decisions::orders::{OrderStep, fresh_order, number_positions};
use crate::decisions::positions::Position;
use base::keyed_lists::lists::Lists;
use base::memory::NoMemory;
use congruence_closure::branch_classes::BranchClasses;
use std::alloc::Global;
use tableau::branch::PoolBranch;
use term_pool::pool::Pool;

// Decides whether two terms have one value by their names: equal names other than 0.
fn are_alike(names: &[usize], left: usize, right: usize) -> bool {
    if left >= names.len() || right >= names.len() {
        return false;
    }
    names[left] != 0 && names[left] == names[right]
}

fn equal_with(
    alloc: Global,
    pool: &mut Pool,
    branch: &PoolBranch,
    classes: &BranchClasses,
    names: &[usize],
    left: usize,
    others: &[usize],
) -> Result<Option<OrderStep>, NoMemory>
    requires over { IsOver pool.old branch.now }
    requires classes { AreClassesOf pool.old branch.now classes.now }
    requires pairs { AreOfBranch pool.old (branch_in pool.old branch.now) (IsWith left others.now) }
    ensures extends { Extends pool.old pool.new }
    ensures due { IfOk result (λ found. IfSome found (IsFreshPair pool.old pool.new (branch_in pool.old branch.now) (IsWith left others.now))) }
{
    for right in others {
        if !are_alike(names, left, *right) {
            continue;
        }
        if let Some(step) = fresh_order(alloc, pool, branch, classes, left, *right)? {
            return Ok(Some(step));
        }
    }
    Ok(None)
}

fn equal_in_groups(
    alloc: Global,
    pool: &mut Pool,
    branch: &PoolBranch,
    classes: &BranchClasses,
    names: &[usize],
    all: &[Position],
    by_group: &Lists,
) -> Result<Option<OrderStep>, NoMemory>
    requires over { IsOver pool.old branch.now }
    requires classes { AreClassesOf pool.old branch.now classes.now }
    requires pairs { AreOfBranch pool.old (branch_in pool.old branch.now) (IsInGroup all.now by_group.now) }
    ensures extends { Extends pool.old pool.new }
    ensures due { IfOk result (λ found. IfSome found (IsFreshPair pool.old pool.new (branch_in pool.old branch.now) (IsInGroup all.now by_group.now))) }
{
    for position in all {
        let others = by_group.at(position.group);
        let found = equal_with(alloc, pool, branch, classes, names, position.term, others)?;
        if let Some(step) = found {
            return Ok(Some(step));
        }
    }
    Ok(None)
}

/// Returns an instance of the trichotomy axiom that is due. This is a heuristic choice: it takes two numbers that index
/// one group of aliasing memories and vectors and have one value in a solution of the rows, since the rows may force
/// them to be equal. Only that the instance is due is a clause; `None` does not mean that no instance is due. `names`
/// gives each term a name by its number; terms with one name other than 0 have one value. `classes` are those of the
/// branch. `NoMemory` if memory runs out.
pub fn equal_order(
    alloc: Global,
    pool: &mut Pool,
    branch: &PoolBranch,
    classes: &BranchClasses,
    names: &[usize],
) -> Result<Option<OrderStep>, NoMemory>
    requires over { IsOver pool.old branch.now }
    requires classes { AreClassesOf pool.old branch.now classes.now }
    ensures extends { Extends pool.old pool.new }
    ensures due { IfOk result (λ found. IfSome found (IsOrder pool.new (branch_in pool.new branch.now))) }
{
    let numbers = number_marks(alloc, pool, branch)?;
    let marks = numbers.as_slice();
    let positions = number_positions(alloc, pool, branch, classes, marks)?;
    let all = positions.all.as_slice();
    equal_in_groups(
        alloc,
        pool,
        branch,
        classes,
        names,
        all,
        &positions.by_group,
    )
}

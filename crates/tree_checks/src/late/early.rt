//! Decides whether anything that comes before all other applications is due.

ghost use Rattle.std.specs.Prelude.{◌↔◌, IsTrue, OnOk, IfOk};
ghost use Rattle.term_pool.specs.Pools.{Extends};
ghost use Rattle.certificates.specs.ProofTraces.{NothingEarly};
ghost use Rattle.tableau.specs.PoolBranches.{branch_in, IsOver};
ghost use Rattle.tableau.specs.Variables.{AreAbove};
ghost use Rattle.axiom_instances.specs.StructRows.{HasFewFields};
ghost use Rattle.tree_checks.specs.Late.{HasNoEntryApplication, HasNoRangeApplication};

use axiom_strategy::known::KnownInstances;
use axiom_strategy::ranges::next_range_axiom;
use base::memory::NoMemory;
use fol::shapes::Shapes;
use std::alloc::Global;
use strategy::early::ranges::next_range_split;
use tableau::aliasing::terms::terms;
use tableau::branch::PoolBranch;
use tableau::names::next_name;
use tableau::names::variables::Variables;
use tableau::rules::parts::next_parts;
use term_pool::pool::Pool;

// Decides whether no alpha or delta rule is due at any entry.
fn has_no_entry_application(
    alloc: Global,
    pool: &mut Pool,
    branch: &PoolBranch,
    variables: &mut Variables,
) -> Result<bool, NoMemory>
    requires over { IsOver pool.old branch.now }
    requires above { AreAbove pool.old branch.now.entries variables.old }
    ensures extends { Extends pool.old pool.new }
    ensures above { OnOk result (AreAbove pool.new branch.now.entries variables.new) }
    ensures exact { IfOk result (λ known. IsTrue known ↔ HasNoEntryApplication (branch_in pool.old branch.now)) }
{
    let parts = next_parts(alloc, pool, branch, 0)?;
    if parts.is_some() {
        return Ok(false);
    }
    let name = next_name(alloc, pool, branch, variables, 0)?;
    Ok(name.is_none())
}

// Decides whether neither an instance of the axioms on ranges and on whole numbers nor a case split of an instance of
// the former is due.
fn has_no_range_application(
    alloc: Global,
    pool: &mut Pool,
    shapes: &Shapes,
    branch: &PoolBranch,
) -> Result<bool, NoMemory>
    requires few { HasFewFields shapes.now }
    requires over { IsOver pool.old branch.now }
    ensures extends { Extends pool.old pool.new }
    ensures exact { IfOk result (λ given. IsTrue given ↔ HasNoRangeApplication shapes.now (branch_in pool.old branch.now)) }
{
    let present = terms(alloc, pool, branch)?;
    let numbers = present.as_slice();
    let mut known = KnownInstances::new(alloc);
    let axiom = next_range_axiom(alloc, pool, shapes, &mut known, branch, numbers)?;
    if axiom.is_some() {
        return Ok(false);
    }
    let split = next_range_split(alloc, pool, shapes, &mut known, branch, 0)?;
    Ok(split.is_none())
}

/// Decides whether nothing is due that comes before all other applications: an alpha or delta rule, an instance of the
/// axioms on ranges and on whole numbers, or a case split of an instance of the axiom on ranges. `variables` is right
/// for the branch, and each struct shape has fewer than 2^32 fields.
///
/// # Errors
///
/// Only if memory runs out.
pub fn is_nothing_early(
    alloc: Global,
    pool: &mut Pool,
    shapes: &Shapes,
    branch: &PoolBranch,
    variables: &mut Variables,
) -> Result<bool, NoMemory>
    requires few { HasFewFields shapes.now }
    requires over { IsOver pool.old branch.now }
    requires above { AreAbove pool.old branch.now.entries variables.old }
    ensures extends { Extends pool.old pool.new }
    ensures above { OnOk result (AreAbove pool.new branch.now.entries variables.new) }
    ensures exact { IfOk result (λ known. IsTrue known ↔ NothingEarly shapes.now (branch_in pool.old branch.now)) }
{
    let entries = has_no_entry_application(alloc, pool, branch, variables)?;
    if !entries {
        return Ok(false);
    }
    let ranges = has_no_range_application(alloc, pool, shapes, branch)?;
    Ok(ranges)
}

//! The delta rule: Skolem names for the variables of existential formulas.

mod existentials;
pub mod laws;
pub mod variables;

ghost use Rattle.std.specs.Prelude.{OnOk, IfOk, MatchOption};
ghost use Rattle.term_pool.specs.Pools.{Extends};
ghost use Rattle.tableau.specs.PoolBranches.{branch_in, IsOver};
ghost use Rattle.tableau.specs.Variables.{AreAbove};
ghost use Rattle.tableau.specs.Names.{NoName, NoNameBefore, IsNameStep};

use crate::branch::PoolBranch;
use crate::names::existentials::{named, next_unnamed};
use crate::names::variables::Variables;
use base::memory::NoMemory;
use std::alloc::Global;
use term_pool::pool::Pool;

/// An application of the delta rule: an entry, a name for the variable that it binds, and the instance for the name.
#[derive(Clone, Copy)]
pub struct NameStep {
    /// The number of the entry.
    pub entry: usize,
    /// The number of the variable that is the name.
    pub variable: u32,
    /// The number of the instance, which is added.
    pub formula: usize,
}

/// Finds the first entry at which a name is due, with the name and the instance of the entry for it; none if no name
/// is due. The search begins at entry `from`.
pub fn next_name(
    alloc: Global,
    pool: &mut Pool,
    branch: &PoolBranch,
    variables: &mut Variables,
    from: usize,
) -> Result<Option<NameStep>, NoMemory>
    requires over { IsOver pool.old branch.now }
    requires above { AreAbove pool.old branch.now.entries variables.old }
    requires before { NoNameBefore (branch_in pool.old branch.now) from }
    ensures extends { Extends pool.old pool.new }
    ensures above { OnOk result (AreAbove pool.new branch.now.entries variables.new) }
    ensures due { IfOk result (λ found. MatchOption found (NoName (branch_in pool.new branch.now)) (IsNameStep pool.new (branch_in pool.new branch.now))) }
{
    let above = variables.above_all(pool, branch)?;
    // Variables are numbers of 32 bits.
    let Ok(variable) = u32::try_from(above) else {
        return Ok(None);
    };
    let Some(found) = next_unnamed(pool, branch, variables, from) else {
        return Ok(None);
    };
    let formula = named(alloc, pool, found.existential, variable)?;
    Ok(Some(NameStep {
        entry: found.entry,
        variable,
        formula,
    }))
}

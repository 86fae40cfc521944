//! The formulas of entries, and the explanation that begins with them.

ghost use Rattle.std.specs.Prelude.{◌≡◌, ◌<◌, ◌≤◌, List, length, map, IfOk};
ghost use Rattle.term_pool.specs.declared.node.Node.{Node};
ghost use Rattle.certificates.specs.BranchesBranch.{formulas};
ghost use Rattle.certificates.specs.Names.{above_all};
ghost use Rattle.tableau.specs.PoolBranches.{branch_in, IsFormulaNumber, IsOver};
ghost use Rattle.tableau.specs.Numbers.{formula_at};
ghost use Rattle.tableau.specs.Terms.{formula_number};
ghost use Rattle.term_pool.specs.Forms.{IsEquationOf};
ghost use Rattle.explanations.specs.Chains.{HasPositions, IsChain};
ghost use Rattle.closing_rules.specs.Entries.{IsFormulaOf, DeniesSome, IsDeniedBy, IsSomeEquation};

use base::memory::NoMemory;
use explanations::chain::Chain;
use std::alloc::Global;
use tableau::branch::PoolBranch;
use term_pool::pool::Pool;

/// The formula of an entry.
pub(crate) fn formula_of(branch: &PoolBranch, entry: usize) -> usize
    requires { entry < length branch.now.entries }
    ensures { IsFormulaOf branch.now entry result }
{
    match branch.entry(entry) {
        Some(found) => found.formula,
        None => 0,
    }
}

/// The formula that an entry negates.
pub(crate) fn denied_by(pool: &Pool, branch: &PoolBranch, entry: usize) -> usize
    requires over { IsOver pool.now branch.now }
    requires denies { DeniesSome (branch_in pool.now branch.now) entry }
    ensures { IsDeniedBy pool.now branch.now entry result }
{
    let Some(found) = branch.entry(entry) else {
        return 0;
    };
    match pool.denied(found.formula) {
        Some(inner) => inner,
        None => 0,
    }
}

/// The sides of an equation.
pub(crate) fn sides_of(pool: &Pool, formula: usize) -> (usize, usize)
    requires formula { IsFormulaNumber pool.now formula }
    requires equates { IsSomeEquation (formula_at pool.now formula) }
    ensures { IsEquationOf pool.now formula result }
{
    match pool.sides(formula) {
        Some(both) => both,
        None => (0, 0),
    }
}

// The numbers of the formulas of the entries.
fn entry_numbers(alloc: Global, branch: &PoolBranch) -> Result<Vec<usize>, NoMemory>
    ensures { IfOk result (λ numbers. numbers.items ≡ map formula_number branch.now.entries) }
{
    let mut numbers = Vec::new(alloc);
    for i in 0..branch.len() {
        let Some(entry) = branch.entry(i) else {
            continue;
        };
        numbers.push(entry.formula)?;
    }
    Ok(numbers)
}

/// The explanation without steps over the entries of a branch. `variable` is greater than all variables of the entries.
/// `NoMemory` if memory runs out.
pub(crate) fn chain_of(alloc: Global, branch: &PoolBranch, variable: u32) -> Result<Chain, NoMemory>
    ensures formulas { IfOk result (λ chain. chain.formulas ≡ map formula_number branch.now.entries) }
    ensures positions { IfOk result HasPositions }
    ensures chain { IfOk result (λ chain. (ns : List Node) → IsOver ns branch.now → above_all (formulas (branch_in ns branch.now)) ≤ variable → IsChain ns (branch_in ns branch.now) chain) }
{
    let numbers = entry_numbers(alloc, branch)?;
    let chain = Chain::of(alloc, numbers.as_slice(), variable)?;
    Ok(chain)
}

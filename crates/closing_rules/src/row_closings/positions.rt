//! The indexes, in an explanation, of entries with the chosen terms.

ghost use Rattle.std.specs.Prelude.{◌≡◌, length, nat_eq, OnOk, IfOk};
ghost use Rattle.indexmap.specs.IndexMap.{get};
ghost use Rattle.term_pool.specs.Pools.{Extends};
ghost use Rattle.congruence_closure.specs.Histories.{IsHistory};
ghost use Rattle.tableau.specs.PoolBranches.{branch_in};
ghost use Rattle.explanations.specs.Chains.{HasPositions, IsChain};
ghost use Rattle.explanations.specs.BranchGraphs.{HasEntries};
ghost use Rattle.closing_rules.specs.Rewritings.{AreRewritingsOf, AreReady, AreNoPositions, ArePlacedBy};
ghost use Rattle.closing_rules.specs.Settings.{IsBase};

use crate::row_closings::equations::equations_of;
use crate::row_closings::rewriting::Rewriting;
use base::memory::NoMemory;
use explanations::chain::Chain;
use explanations::derived::difference::Graph;
use explanations::derived::replacing::replace_each;
use row_reasoning::differences::choice::Choice;
use std::alloc::Global;
use tableau::branch::PoolBranch;
use term_pool::pool::Pool;

// Indexes before any entry has one.
fn no_positions(alloc: Global, count: usize) -> Result<Vec<Option<usize>>, NoMemory>
    ensures { IfOk result (λ positions. AreNoPositions count positions.items) }
{
    let mut positions = Vec::new(alloc);
    positions.resize(count, None)?;
    Ok(positions)
}

// Rewrites the entries, and returns the index of each in the explanation.
fn position_each(
    alloc: Global,
    pool: &mut Pool,
    chain: &mut Chain,
    branch: &PoolBranch,
    numbers: &[usize],
    table: &[Option<usize>],
    rewritings: &[Rewriting],
) -> Result<Vec<Option<usize>>, NoMemory>
    requires ready { AreReady pool.old (branch_in pool.old branch.now) chain.old numbers.now table.now rewritings.now }
    requires chain { IsChain pool.old (branch_in pool.old branch.now) chain.old }
    requires positions { HasPositions chain.old }
    ensures extends { Extends pool.old pool.new }
    ensures chain { OnOk result (IsChain pool.new (branch_in pool.old branch.now) chain.new) }
    ensures placed { IfOk result (λ positions. ArePlacedBy pool.old chain.old numbers.now rewritings.now pool.new chain.new positions.items) }
{
    let _branch = branch;
    let mut positions = no_positions(alloc, chain.len())?;
    for rewriting in rewritings {
        let differences = rewriting.differences.as_slice();
        let position = replace_each(pool, chain, numbers, table, rewriting.entry, differences)?;
        positions[rewriting.entry] = Some(position);
    }
    Ok(positions)
}

/// Rewrites entries of the branch, with which the explanation begins, and returns the index of each result.
pub(crate) fn positions(
    alloc: Global,
    pool: &mut Pool,
    chain: &mut Chain,
    branch: &PoolBranch,
    choice: Choice<'_>,
    rewritings: &[Rewriting],
) -> Result<Vec<Option<usize>>, NoMemory>
    requires base { IsBase pool.old branch.now choice.classes.now }
    requires history { IsHistory choice.classes.now.classes.links (length choice.classes.now.classes.links) choice.history.now }
    requires rewritings { AreRewritingsOf pool.old branch.now choice.classes.now choice.names.now (get nat_eq choice.chosen.now) rewritings.now }
    requires entries { HasEntries chain.old choice.classes.now.entries }
    requires chain { IsChain pool.old (branch_in pool.old branch.now) chain.old }
    requires positions { HasPositions chain.old }
    ensures extends { Extends pool.old pool.new }
    ensures chain { OnOk result (IsChain pool.new (branch_in pool.old branch.now) chain.new) }
    ensures placed { IfOk result (λ positions. ArePlacedBy pool.old chain.old choice.entry.classes.now.numbers rewritings.now pool.new chain.new positions.items) }
{
    let graph = Graph {
        nodes: choice.classes.nodes(),
        links: choice.classes.links(),
        history: choice.history,
        numbers: choice.classes.numbers(),
    };
    let table = equations_of(alloc, pool, chain, branch, graph, rewritings)?;
    let equations = table.as_slice();
    let positions = position_each(
        alloc,
        pool,
        chain,
        branch,
        graph.numbers,
        equations,
        rewritings,
    )?;
    Ok(positions)
}

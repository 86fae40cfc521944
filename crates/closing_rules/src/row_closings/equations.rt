//! The equations that rewritings use.

ghost use Rattle.std.specs.Prelude.{length, OnOk, IfOk};
ghost use Rattle.term_pool.specs.Pools.{Extends};
ghost use Rattle.congruence_closure.specs.Histories.{IsHistory};
ghost use Rattle.tableau.specs.PoolBranches.{branch_in};
ghost use Rattle.explanations.specs.Chains.{HasPositions, Keeps, IsChain};
ghost use Rattle.explanations.specs.Graphs.{IsGraph};
ghost use Rattle.explanations.specs.Plans.{CanMark, AreMarked};
ghost use Rattle.explanations.specs.Derivations.{AreSaid, CanBeginAny};
ghost use Rattle.closing_rules.specs.Rewritings.{IsOnEach, AreSources, AreReady};

use crate::row_closings::rewriting::Rewriting;
use base::memory::NoMemory;
use explanations::chain::Chain;
use explanations::derived::derive::{equations, unmarked};
use explanations::derived::difference::Graph;
use explanations::derived::plan::{mark_all, plans};
use std::alloc::Global;
use tableau::branch::PoolBranch;
use term_pool::pool::Pool;

// Marks the proof forest edges that these rewritings use.
fn mark_each(needed: &mut Vec<bool>, rewritings: &[Rewriting])
    requires { CanMark (length needed.old.items) (IsOnEach rewritings.now) }
    ensures { AreMarked (IsOnEach rewritings.now) needed.old.items needed.new.items }
{
    for rewriting in rewritings {
        mark_all(needed, rewriting.differences.as_slice());
    }
}

/// The indexes, in the explanation, of the equations of the proof forest edges that these rewritings use.
pub(crate) fn equations_of(
    alloc: Global,
    pool: &mut Pool,
    chain: &mut Chain,
    branch: &PoolBranch,
    graph: Graph<'_>,
    rewritings: &[Rewriting],
) -> Result<Vec<Option<usize>>, NoMemory>
    requires graph { IsGraph pool.old graph.nodes.now graph.links.now graph.numbers.now }
    requires history { IsHistory graph.links.now (length graph.links.now) graph.history.now }
    requires said { AreSaid pool.old chain.old graph.links.now graph.numbers.now }
    requires sources { AreSources pool.old graph.nodes.now graph.links.now graph.numbers.now chain.old rewritings.now }
    requires begin { CanBeginAny pool.old graph.nodes.now (branch_in pool.old branch.now) chain.old graph.numbers.now }
    requires chain { IsChain pool.old (branch_in pool.old branch.now) chain.old }
    requires positions { HasPositions chain.old }
    ensures extends { Extends pool.old pool.new }
    ensures positions { OnOk result (HasPositions chain.new) }
    ensures keeps { OnOk result (Keeps chain.old chain.new) }
    ensures chain { OnOk result (IsChain pool.new (branch_in pool.old branch.now) chain.new) }
    ensures ready { IfOk result (λ table. AreReady pool.new (branch_in pool.old branch.now) chain.new graph.entry.numbers.now table.items rewritings.now) }
{
    let mut needed = unmarked(alloc, graph.links.len())?;
    mark_each(&mut needed, rewritings);
    let taken = plans(alloc, pool, graph, &mut needed)?;
    let marks = needed.as_slice();
    let table = equations(alloc, pool, chain, graph, marks, taken)?;
    Ok(table)
}

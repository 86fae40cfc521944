//! Formulas that are equal up to the classes: the one becomes the other by replacing terms by equal ones.

ghost use Rattle.std.specs.Prelude.{◌≡◌, length, slice_get, Some, OnOk, IfOk};
ghost use Rattle.congruence_closure.specs.Histories.{IsHistory};
ghost use Rattle.congruence_closure.specs.Links.{Linked};
ghost use Rattle.term_pool.specs.Pools.{Extends};
ghost use Rattle.certificates.specs.BranchesBranch.{Branch};
ghost use Rattle.congruence_closure.specs.Numbers.{number_at};
ghost use Rattle.explanations.specs.Chains.{formula_at, HasPositions, Keeps, IsAt, IsChain};
ghost use Rattle.explanations.specs.Replacing.{IsReplacedAt};
ghost use Rattle.explanations.specs.Graphs.{IsGraph};
ghost use Rattle.explanations.specs.Derivations.{AreSaid, CanBeginAny};
ghost use Rattle.explanations.specs.Formulas.{IsFormulaNode, AreInSource};

use crate::chain::Chain;
use crate::derived::derive::{equations, unmarked};
use crate::derived::difference::{Graph, Position, differences};
use crate::derived::plan::{mark_all, plans};
use crate::derived::replacing::{Difference, replace_each};
use base::memory::NoMemory;
use std::alloc::Global;
use term_pool::pool::Pool;

/// Returns an index of the source formula after these replacements. It derives the equations that they need.
pub fn replaced(
    alloc: Global,
    pool: &mut Pool,
    chain: &mut Chain,
    graph: Graph<'_>,
    source: usize,
    found: &[Difference],
) -> Result<usize, NoMemory>
    requires graph { IsGraph pool.old graph.nodes.now graph.links.now graph.numbers.now }
    requires history { IsHistory graph.links.now (length graph.links.now) graph.history.now }
    requires said { AreSaid pool.old chain.old graph.links.now graph.numbers.now }
    requires found { AreInSource pool.old graph.nodes.now graph.links.now graph.numbers.now chain.old source found.now }
    requires positions { HasPositions chain.old }
    ensures extends { Extends pool.old pool.new }
    ensures positions { OnOk result (HasPositions chain.new) }
    ensures keeps { OnOk result (Keeps chain.old chain.new) }
    ensures at { IfOk result (IsReplacedAt pool.old chain.old graph.entry.numbers.now source found.now pool.new chain.new) }
    ensures chain { OnOk result ((b : Branch) → IsChain pool.old b chain.old → CanBeginAny pool.old graph.entry.nodes.now b chain.old graph.entry.numbers.now → IsChain pool.new b chain.new) }
{
    let mut needed = unmarked(alloc, graph.links.len())?;
    mark_all(&mut needed, found);
    let taken = plans(alloc, pool, graph, &mut needed)?;
    let marks = needed.as_slice();
    let table = equations(alloc, pool, chain, graph, marks, taken)?;
    let positions = table.as_slice();
    let position = replace_each(pool, chain, graph.numbers, positions, source, found)?;
    Ok(position)
}

/// Returns an index of the formula of the node `other`, where the source is the formula of the node `one`, and edges
/// connect the two nodes.
pub fn derive_alike(
    alloc: Global,
    pool: &mut Pool,
    chain: &mut Chain,
    graph: Graph<'_>,
    one: usize,
    other: usize,
    source: usize,
) -> Result<usize, NoMemory>
    requires graph { IsGraph pool.old graph.nodes.now graph.links.now graph.numbers.now }
    requires history { IsHistory graph.links.now (length graph.links.now) graph.history.now }
    requires said { AreSaid pool.old chain.old graph.links.now graph.numbers.now }
    requires one { IsFormulaNode pool.old graph.nodes.now graph.numbers.now one }
    requires other { IsFormulaNode pool.old graph.nodes.now graph.numbers.now other }
    requires linked { Linked graph.links.now one other }
    requires source { slice_get chain.old.formulas source ≡ Some (number_at graph.numbers.now one) }
    requires positions { HasPositions chain.old }
    ensures extends { Extends pool.old pool.new }
    ensures positions { OnOk result (HasPositions chain.new) }
    ensures keeps { OnOk result (Keeps chain.old chain.new) }
    ensures at { IfOk result (λ position. IsAt pool.new chain.new position (formula_at pool.old (number_at graph.entry.numbers.now other))) }
    ensures chain { OnOk result ((b : Branch) → IsChain pool.old b chain.old → CanBeginAny pool.old graph.entry.nodes.now b chain.old graph.entry.numbers.now → IsChain pool.new b chain.new) }
{
    let mut found = Vec::new(alloc);
    let way = Vec::new(alloc);
    let position = Position { way, one, other };
    let before = graph.links.len();
    differences(alloc, pool, graph, before, position, &mut found)?;
    let all = found.as_slice();
    let end = replaced(alloc, pool, chain, graph, source, all)?;
    Ok(end)
}

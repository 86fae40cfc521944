//! The equations of the needed edges, from the first to the last, and the equation of two nodes.

ghost use Rattle.std.specs.Prelude.{◌≡◌, ℕ, ◌+◌, ◌<◌, length, slice_get, OnOk, IfOk};
ghost use Rattle.congruence_closure.specs.Histories.{IsHistory};
ghost use Rattle.congruence_closure.specs.Links.{Linked};
ghost use Rattle.term_pool.specs.Items.{TermSort};
ghost use Rattle.term_pool.specs.Pools.{HasPart, Extends};
ghost use Rattle.certificates.specs.BranchesBranch.{Branch};
ghost use Rattle.explanations.specs.Chains.{HasPositions, Keeps, IsChain};
ghost use Rattle.congruence_closure.specs.Numbers.{number_at};
ghost use Rattle.explanations.specs.Routes.{IsEquation};
ghost use Rattle.explanations.specs.Replacing.{CanBeginAll};
ghost use Rattle.explanations.specs.Graphs.{IsTermNode, IsGraph};
ghost use Rattle.explanations.specs.Plans.{ArePlans};
ghost use Rattle.explanations.specs.Derivations.{HasEquation, AreSaid, IsReady, IsNextReady, ArePlaced, CanBeginAny, CanBeginNext, IsUnmarked};

use crate::chain::Chain;
use crate::derived::difference::Graph;
use crate::derived::plan::{Plan, is_needed, mark, plans};
use crate::derived::replacing::{Difference, replace_all};
use crate::derived::route::{along, number_of};
use base::memory::NoMemory;
use congruence_closure::classes::link::{Link, Why};
use congruence_closure::forest_paths::{Span, path};
use fol::operators::Comparison;
use std::alloc::Global;
use term_pool::node::{Node, Two};
use term_pool::pool::Pool;

// The index of an equation that the explanation has.
fn said(pool: &mut Pool, chain: &Chain, left: usize, right: usize) -> Result<usize, NoMemory>
    requires left { HasPart pool.old (length pool.old) left TermSort }
    requires right { HasPart pool.old (length pool.old) right TermSort }
    requires said { HasEquation pool.old chain.now left right }
    requires positions { HasPositions chain.now }
    ensures extends { Extends pool.old pool.new }
    ensures at { IfOk result (λ position. IsEquation pool.new chain.now position left right) }
{
    let formula = pool.insert(Node::Two(Two::Compare(Comparison::Eq), left, right))?;
    pool.one_number();
    match chain.position(formula) {
        Some(position) => Ok(position),
        None => Ok(0),
    }
}

// Returns an index of the equation of the ends of an edge.
fn link_equation(
    pool: &mut Pool,
    chain: &mut Chain,
    numbers: &[usize],
    equations: &[Option<usize>],
    link: Link,
    found: &[Difference],
) -> Result<usize, NoMemory>
    requires ready { IsReady pool.old chain.old numbers.now equations.now link found.now }
    requires positions { HasPositions chain.old }
    ensures extends { Extends pool.old pool.new }
    ensures positions { OnOk result (HasPositions chain.new) }
    ensures keeps { OnOk result (Keeps chain.old chain.new) }
    ensures at { IfOk result (λ position. IsEquation pool.new chain.new position (number_at numbers.now link.left) (number_at numbers.now link.right)) }
    ensures chain { OnOk result ((b : Branch) → IsChain pool.old b chain.old → CanBeginAll pool.old b chain.old numbers.now (number_at numbers.now link.left) found.now → IsChain pool.new b chain.new) }
{
    let left = number_of(numbers, link.left);
    let right = number_of(numbers, link.right);
    match link.why {
        Why::Given(_) => {
            let position = said(pool, chain, left, right)?;
            Ok(position)
        }
        Why::Alike => {
            let position = replace_all(pool, chain, numbers, equations, left, found)?;
            Ok(position)
        }
    }
}

// The edge with a number.
fn link_of(links: &[Link], number: usize) -> Option<Link>
    ensures { result ≡ slice_get links.now number }
{
    match links.get(number) {
        Some(link) => Some(*link),
        None => None,
    }
}

// Records the index of the equation of the next edge, if it is needed.
fn next_equation(
    pool: &mut Pool,
    chain: &mut Chain,
    graph: Graph<'_>,
    needed: &[bool],
    equations: &mut Vec<Option<usize>>,
    found: &[Difference],
) -> Result<(), NoMemory>
    requires ready { IsNextReady pool.old chain.old graph.links.now graph.numbers.now needed.now equations.old.items found.now }
    requires positions { HasPositions chain.old }
    requires placed { ArePlaced pool.old chain.old graph.links.now graph.numbers.now needed.now equations.old.items (length equations.old.items) }
    ensures extends { Extends pool.old pool.new }
    ensures positions { OnOk result (HasPositions chain.new) }
    ensures keeps { OnOk result (Keeps chain.old chain.new) }
    ensures long { OnOk result (length equations.new.items ≡ length equations.old.items + 1) }
    ensures placed { OnOk result (ArePlaced pool.new chain.new graph.entry.links.now graph.entry.numbers.now needed.now equations.new.items (length equations.new.items)) }
    ensures chain { OnOk result ((b : Branch) → IsChain pool.old b chain.old → CanBeginNext pool.old b chain.old graph.entry.links.now graph.entry.numbers.now needed.now (length equations.old.items) found.now → IsChain pool.new b chain.new) }
{
    let number = equations.len();
    if is_needed(needed, number) {
        match link_of(graph.links, number) {
            Some(link) => {
                let before = equations.as_slice();
                let position = link_equation(pool, chain, graph.numbers, before, link, found)?;
                equations.push(Some(position))?;
                Ok(())
            }
            None => Ok(()),
        }
    } else {
        equations.push(None)?;
        Ok(())
    }
}

/// Returns the indices of the equations of the needed edges.
pub fn equations(
    alloc: Global,
    pool: &mut Pool,
    chain: &mut Chain,
    graph: Graph<'_>,
    needed: &[bool],
    plans: Vec<Plan>,
) -> Result<Vec<Option<usize>>, NoMemory>
    requires graph { IsGraph pool.old graph.nodes.now graph.links.now graph.numbers.now }
    requires said { AreSaid pool.old chain.old graph.links.now graph.numbers.now }
    requires plans { ArePlans pool.old graph.nodes.now graph.links.now graph.numbers.now needed.now plans.items 0 }
    requires positions { HasPositions chain.old }
    ensures extends { Extends pool.old pool.new }
    ensures positions { OnOk result (HasPositions chain.new) }
    ensures keeps { OnOk result (Keeps chain.old chain.new) }
    ensures placed { IfOk result (λ equations. ArePlaced pool.new chain.new graph.entry.links.now graph.entry.numbers.now needed.now equations.items (length graph.entry.links.now)) }
    ensures chain { OnOk result ((b : Branch) → IsChain pool.old b chain.old → CanBeginAny pool.old graph.entry.nodes.now b chain.old graph.entry.numbers.now → IsChain pool.new b chain.new) }
{
    let mut plans = plans;
    let mut equations = Vec::new(alloc);
    while let Some(plan) = plans.pop() {
        let found = plan.found.as_slice();
        next_equation(pool, chain, graph, needed, &mut equations, found)?;
    }
    Ok(equations)
}

/// Returns marks by which no edge is needed.
pub fn unmarked(alloc: Global, count: usize) -> Result<Vec<bool>, NoMemory>
    ensures { IfOk result (λ needed. IsUnmarked count needed.items) }
{
    let mut needed = Vec::new(alloc);
    needed.resize(count, false)?;
    Ok(needed)
}

/// Returns an index of the equation of two terms, given by their nodes, which edges connect.
pub fn derive(
    alloc: Global,
    pool: &mut Pool,
    chain: &mut Chain,
    graph: Graph<'_>,
    one: usize,
    other: usize,
) -> Result<usize, NoMemory>
    requires graph { IsGraph pool.old graph.nodes.now graph.links.now graph.numbers.now }
    requires history { IsHistory graph.links.now (length graph.links.now) graph.history.now }
    requires said { AreSaid pool.old chain.old graph.links.now graph.numbers.now }
    requires one { IsTermNode pool.old graph.nodes.now graph.numbers.now one }
    requires within { one < length graph.nodes.now }
    requires linked { Linked graph.links.now one other }
    requires positions { HasPositions chain.old }
    ensures extends { Extends pool.old pool.new }
    ensures positions { OnOk result (HasPositions chain.new) }
    ensures keeps { OnOk result (Keeps chain.old chain.new) }
    ensures at { IfOk result (λ position. IsEquation pool.new chain.new position (number_at graph.entry.numbers.now one) (number_at graph.entry.numbers.now other)) }
    ensures chain { OnOk result ((b : Branch) → IsChain pool.old b chain.old → CanBeginAny pool.old graph.entry.nodes.now b chain.old graph.entry.numbers.now → IsChain pool.new b chain.new) }
{
    let count = graph.links.len();
    let span = Span {
        from: one,
        to: other,
        before: count,
    };
    let route = path(alloc, graph.history, graph.links, span)?;
    let mut needed = unmarked(alloc, count)?;
    let way = route.as_slice();
    mark(&mut needed, way);
    let found = plans(alloc, pool, graph, &mut needed)?;
    let marks = needed.as_slice();
    let table = equations(alloc, pool, chain, graph, marks, found)?;
    let positions = table.as_slice();
    let position = along(pool, chain, graph.numbers, positions, one, way)?;
    Ok(position)
}

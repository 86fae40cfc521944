//! Plans: the edges that the equation of two nodes needs, and those that each of these needs in turn.

ghost use Rattle.std.specs.Prelude.{◌≡◌, ℕ, ◌+◌, ◌<◌, true, length, take, OnOk, IfOk};
ghost use Rattle.congruence_closure.specs.Histories.{IsHistory};
ghost use Rattle.congruence_closure.specs.Links.{Linked, AreAlikeAt};
ghost use Rattle.congruence_closure.specs.Numbers.{number_at};
ghost use Rattle.explanations.specs.Replacing.{itself_item};
ghost use Rattle.explanations.specs.Graphs.{IsTermNode, IsGraph};
ghost use Rattle.explanations.specs.Positions.{AreFound};
ghost use Rattle.explanations.specs.Plans.{is_needed, IsOn, IsOnAny, IsThis, CanMark, AreMarked, equation_item, IsPlan, HasTermEnds, AreNeeded, IsNextPlan, ArePlans};

use crate::derived::difference::{Graph, are_apart, differences, parts, step};
use crate::derived::replacing::Difference;
use crate::derived::route::number_of;
use crate::frame::Frame;
use base::memory::NoMemory;
use congruence_closure::classes::link::{Link, Why};
use congruence_closure::proof_forest::Join;
use fol::operators::Comparison;
use std::alloc::Global;
use term_pool::node::Two;
use term_pool::pool::Pool;

/// The differences between the ends of an edge.
#[derive(Drop)]
pub struct Plan {
    pub found: Vec<Difference>,
}

/// Decides whether an edge is needed.
pub fn is_needed(needed: &[bool], link: usize) -> bool
    ensures { result ≡ is_needed needed.now link }
{
    match needed.get(link) {
        Some(is) => *is,
        None => false,
    }
}

// Marks an edge.
fn mark_one(needed: &mut Vec<bool>, link: usize)
    requires { link < length needed.old.items }
    ensures { AreMarked (IsThis link) needed.old.items needed.new.items }
{
    needed[link] = true;
}

/// Marks the edges of a route.
pub fn mark(needed: &mut Vec<bool>, route: &[Join])
    requires { CanMark (length needed.old.items) (IsOn route.now) }
    ensures { AreMarked (IsOn route.now) needed.old.items needed.new.items }
{
    for join in route {
        mark_one(needed, join.link);
    }
}

/// Marks the edges of the routes of these differences.
pub fn mark_all(needed: &mut Vec<bool>, found: &[Difference])
    requires { CanMark (length needed.old.items) (IsOnAny found.now) }
    ensures { AreMarked (IsOnAny found.now) needed.old.items needed.new.items }
{
    for difference in found {
        mark(needed, difference.route.as_slice());
    }
}

// Adds at the end the differences of two congruent nodes.
fn alike(
    alloc: Global,
    pool: &Pool,
    graph: Graph<'_>,
    before: usize,
    link: Link,
    found: &mut Vec<Difference>,
) -> Result<(), NoMemory>
    requires graph { IsGraph pool.now graph.nodes.now graph.links.now graph.numbers.now }
    requires history { IsHistory graph.links.now (length graph.links.now) graph.history.now }
    requires left { IsTermNode pool.now graph.nodes.now graph.numbers.now link.left }
    requires right { IsTermNode pool.now graph.nodes.now graph.numbers.now link.right }
    requires alike { AreAlikeAt graph.nodes.now (Linked (take before graph.links.now)) link.left link.right }
    ensures { OnOk result (AreFound pool.now graph.entry.nodes.now graph.entry.links.now graph.entry.numbers.now before (itself_item pool.now (number_at graph.entry.numbers.now link.left)) (equation_item pool.now (number_at graph.entry.numbers.now link.left) (number_at graph.entry.numbers.now link.right)) found.old.items found.new.items) }
{
    if are_apart(graph.numbers, link.left, link.right) {
        let left = number_of(graph.numbers, link.left);
        let right_side = Frame::SecondOfTwo(Two::Compare(Comparison::Eq), left);
        let position = step(alloc, &[], right_side, link.left, link.right)?;
        let next = parts(alloc, pool, graph, before, position, found)?;
        differences(alloc, pool, graph, before, next, found)?;
    }
    Ok(())
}

/// Returns the differences between the ends of an edge.
pub fn plan_of(
    alloc: Global,
    pool: &Pool,
    graph: Graph<'_>,
    number: usize,
) -> Result<Vec<Difference>, NoMemory>
    requires graph { IsGraph pool.now graph.nodes.now graph.links.now graph.numbers.now }
    requires history { IsHistory graph.links.now (length graph.links.now) graph.history.now }
    requires ends { HasTermEnds pool.now graph.nodes.now graph.links.now graph.numbers.now number }
    ensures { IfOk result (λ found. IsPlan pool.now graph.entry.nodes.now graph.entry.links.now graph.entry.numbers.now number found.items) }
{
    let link = graph.links[number];
    let mut found = Vec::new(alloc);
    match link.why {
        Why::Given(_) => Ok(found),
        Why::Alike => {
            alike(alloc, pool, graph, number, link, &mut found)?;
            Ok(found)
        }
    }
}

// Returns the plan of the edge with this number, if it is needed, and marks the edges of the plan as needed.
fn next_plan(
    alloc: Global,
    pool: &Pool,
    graph: Graph<'_>,
    needed: &mut Vec<bool>,
    number: usize,
) -> Result<Plan, NoMemory>
    requires graph { IsGraph pool.now graph.nodes.now graph.links.now graph.numbers.now }
    requires history { IsHistory graph.links.now (length graph.links.now) graph.history.now }
    requires needed { AreNeeded pool.now graph.nodes.now graph.links.now graph.numbers.now needed.old.items }
    ensures stays { OnOk result ((k : ℕ) → is_needed needed.old.items k ≡ true → is_needed needed.new.items k ≡ true) }
    ensures needed { OnOk result (AreNeeded pool.now graph.entry.nodes.now graph.entry.links.now graph.entry.numbers.now needed.new.items) }
    ensures plan { IfOk result (IsNextPlan pool.now graph.entry.nodes.now graph.entry.links.now graph.entry.numbers.now number needed.old.items needed.new.items) }
{
    if is_needed(needed.as_slice(), number) {
        let found = plan_of(alloc, pool, graph, number)?;
        mark_all(needed, found.as_slice());
        Ok(Plan { found })
    } else {
        Ok(Plan {
            found: Vec::new(alloc),
        })
    }
}

/// Returns the plan of each needed edge, the last edge first.
pub fn plans(
    alloc: Global,
    pool: &Pool,
    graph: Graph<'_>,
    needed: &mut Vec<bool>,
) -> Result<Vec<Plan>, NoMemory>
    requires graph { IsGraph pool.now graph.nodes.now graph.links.now graph.numbers.now }
    requires history { IsHistory graph.links.now (length graph.links.now) graph.history.now }
    requires needed { AreNeeded pool.now graph.nodes.now graph.links.now graph.numbers.now needed.old.items }
    ensures stays { OnOk result ((k : ℕ) → is_needed needed.old.items k ≡ true → is_needed needed.new.items k ≡ true) }
    ensures plans { IfOk result (λ plans. ArePlans pool.now graph.entry.nodes.now graph.entry.links.now graph.entry.numbers.now needed.new.items plans.items 0) }
{
    let mut plans = Vec::new(alloc);
    let mut rest = graph.links.len();
    while rest > 0 {
        rest -= 1;
        let plan = next_plan(alloc, pool, graph, needed, rest)?;
        plans.push(plan)?;
    }
    Ok(plans)
}

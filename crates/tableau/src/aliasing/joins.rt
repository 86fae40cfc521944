//! The edges of the aliasing graph.

ghost use Rattle.std.specs.Prelude.{◌≡◌, ℕ, ◌<◌, length, Some, nat_eq, OnOk};
ghost use Rattle.indexmap.specs.IndexMap.{get};
ghost use Rattle.tableau.specs.Groups.{changed};
ghost use Rattle.tableau.specs.Graphs.{IsJoined, IsChangeJoined, IsClassJoined};

use base::cycles::graph::Graph;
use base::memory::NoMemory;
use fol::operators::{Binary, Ternary, Unary};
use indexmap::IndexMap;
use term_pool::node::{Node, One, Three, Two};
use term_pool::numbers::{look_up, note};
use term_pool::pool::Pool;

// Adds edges between two numbers, both ways.
fn join(graph: &mut Graph, left: usize, right: usize) -> Result<(), NoMemory>
    requires left { left < length graph.old }
    requires right { right < length graph.old }
    ensures { OnOk result (IsJoined graph.old graph.new left right) }
{
    graph.add_edge(left, right)?;
    graph.add_edge(right, left)
}

// The memory or vector that a term updates; none if the term is no update.
fn changed(node: Node) -> Option<usize>
    ensures { result ≡ changed node }
{
    match node {
        Node::One(One::Unary(Unary::Pop), vector) => Some(vector),
        Node::Two(Two::Binary(Binary::Push), vector, _) => Some(vector),
        Node::Three(Three::Ternary(_), changed, _, _) => Some(changed),
        _ => None,
    }
}

/// Joins a number with that of the memory or vector that its term updates.
pub(crate) fn join_changed(graph: &mut Graph, pool: &Pool, number: usize) -> Result<(), NoMemory>
    requires within { number < length pool.now }
    requires one_each { length graph.old ≡ length pool.now }
    ensures { OnOk result (IsChangeJoined pool.now number graph.old graph.new) }
{
    match pool.node(number) {
        Some(node) => match changed(node) {
            Some(part) => join(graph, number, part),
            None => Ok(()),
        },
        None => Ok(()),
    }
}

/// Joins a number with the first one of its class, or records it as the first.
pub(crate) fn join_class(
    graph: &mut Graph,
    firsts: &mut IndexMap<usize, usize>,
    class: usize,
    number: usize,
) -> Result<(), NoMemory>
    requires within { number < length graph.old }
    requires firsts { (k first : ℕ) → get nat_eq firsts.old k ≡ Some first → first < length graph.old }
    ensures { OnOk result (IsClassJoined class number graph.old graph.new (get nat_eq firsts.old) (get nat_eq firsts.new)) }
{
    match look_up(firsts, class) {
        Some(first) => join(graph, number, first),
        None => note(firsts, class, number),
    }
}

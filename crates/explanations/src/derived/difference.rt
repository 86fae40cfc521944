//! The differences between the terms of two nodes: the positions of different terms that edges connect.

ghost use Rattle.std.specs.Prelude.{◌≡◌, ◌≢◌, ◌<◌, length, take, slice_index_or, MatchBool, OnOk, IfOk};
ghost use Rattle.congruence_closure.specs.Histories.{IsHistory};
ghost use Rattle.congruence_closure.specs.Links.{Linked, AreAlikeAt};
ghost use Rattle.term_pool.specs.Pools.{item_at};
ghost use Rattle.term_pool.specs.declared.node.Leaf.TheVariants.{NilTerms};
ghost use Rattle.term_pool.specs.declared.node.Node.TheVariants.{Leaf as LeafNode};
ghost use Rattle.explanations.specs.Frames.{bound_on};
ghost use Rattle.congruence_closure.specs.Numbers.{number_at};
ghost use Rattle.explanations.specs.BoundNodes.{IsLoose, IsTied};
ghost use Rattle.explanations.specs.Graphs.{IsGraph};
ghost use Rattle.explanations.specs.Positions.{one_at, other_at, IsPosition, AreTwo, AreThree, IsPair, IsStepTo, IsPushed, AreFound, IsNext, IsTurn};

use crate::derived::bound::is_uncaptured;
use crate::derived::replacing::Difference;
use crate::derived::route::number_of;
use crate::frame::Frame;
use base::memory::NoMemory;
use congruence_closure::classes::link::Link;
use congruence_closure::forest_paths::{Span, path};
use congruence_closure::proof_forest::History;
use std::alloc::Global;
use term_pool::node::{Leaf, Node, One, Three, Two};
use term_pool::pool::Pool;

/// The nodes of classes with the edges of the proof forest between them, and the number of each node in a pool.
#[derive(Clone, Copy)]
pub struct Graph<'a> {
    pub nodes: &'a [Node],
    pub links: &'a [Link],
    pub history: &'a History,
    pub numbers: &'a [usize],
}

/// A position in two items, and the nodes of the one and of the other at it.
#[derive(Drop)]
pub(crate) struct Position {
    pub way: Vec<Frame>,
    pub one: usize,
    pub other: usize,
}

/// The parts of two nodes of equal arity, by the head symbol of the first one.
#[derive(Clone, Copy)]
pub(crate) enum Pair {
    One(One, usize, usize),
    Two(Two, (usize, usize), (usize, usize)),
    Three(Three, (usize, usize, usize), (usize, usize, usize)),
    // They have no parts, or different arities.
    Unlike,
}

// The node with a number.
fn node_of(nodes: &[Node], number: usize) -> Node
    ensures { result ≡ slice_index_or nodes.now number (LeafNode NilTerms) }
{
    match nodes.get(number) {
        Some(node) => *node,
        None => Node::Leaf(Leaf::NilTerms),
    }
}

fn pair_of(one: Node, other: Node) -> Pair
    ensures { IsPair one other result }
{
    match one {
        Node::Leaf(_) => Pair::Unlike,
        Node::One(head, a) => match other {
            Node::One(_, x) => Pair::One(head, a, x),
            _ => Pair::Unlike,
        },
        Node::Two(head, a, b) => match other {
            Node::Two(_, x, y) => Pair::Two(head, (a, b), (x, y)),
            _ => Pair::Unlike,
        },
        Node::Three(head, a, b, c) => match other {
            Node::Three(_, x, y, z) => Pair::Three(head, (a, b, c), (x, y, z)),
            _ => Pair::Unlike,
        },
    }
}

// Decides whether the number is that of a term in which no variable is free that the context binds.
fn is_loose(alloc: Global, pool: &Pool, way: &[Frame], number: usize) -> Result<bool, NoMemory>
    requires { number < length pool.now }
    ensures { IfOk result (λ loose. MatchBool loose (IsLoose (bound_on way.now) (item_at pool.now number)) (IsTied (bound_on way.now) (item_at pool.now number))) }
{
    if !pool.is_term(number) {
        return Ok(false);
    }
    let uncaptured = is_uncaptured(alloc, pool, way, number)?;
    Ok(uncaptured)
}

// Decides whether two nodes have different numbers.
pub(crate) fn are_apart(numbers: &[usize], one: usize, other: usize) -> bool
    ensures { MatchBool result (number_at numbers.now one ≢ number_at numbers.now other) (number_at numbers.now one ≡ number_at numbers.now other) }
{
    number_of(numbers, one) != number_of(numbers, other)
}

// The position below one more head symbol.
pub(crate) fn step(
    alloc: Global,
    way: &[Frame],
    frame: Frame,
    one: usize,
    other: usize,
) -> Result<Position, NoMemory>
    ensures { IfOk result (IsStepTo way.now frame one other) }
{
    let mut longer = Vec::new(alloc);
    for head in way {
        longer.push(*head)?;
    }
    longer.push(frame)?;
    Ok(Position {
        way: longer,
        one,
        other,
    })
}

// Adds at the end the difference at a position where two terms differ.
fn push_term(
    alloc: Global,
    graph: Graph<'_>,
    before: usize,
    position: Position,
    found: &mut Vec<Difference>,
) -> Result<(), NoMemory>
    requires history { IsHistory graph.links.now (length graph.links.now) graph.history.now }
    requires linked { Linked (take before graph.links.now) position.one position.other }
    ensures { OnOk result (IsPushed graph.entry.links.now before position found.old.items found.new.items) }
{
    let span = Span {
        from: position.one,
        to: position.other,
        before,
    };
    let route = path(alloc, graph.history, graph.links, span)?;
    found.push(Difference {
        way: position.way,
        from: position.one,
        to: position.other,
        route,
    })?;
    Ok(())
}

// Handles the first parts of two nodes with equal head symbols, and returns the position of the second ones.
#[cycle(differences)]
fn two(
    alloc: Global,
    pool: &Pool,
    graph: Graph<'_>,
    before: usize,
    position: Position,
    head: Two,
    one: (usize, usize),
    other: (usize, usize),
    found: &mut Vec<Difference>,
) -> Result<Position, NoMemory>
    requires graph { IsGraph pool.now graph.nodes.now graph.links.now graph.numbers.now }
    requires history { IsHistory graph.links.now (length graph.links.now) graph.history.now }
    requires two { AreTwo pool.now graph.nodes.now graph.links.now graph.numbers.now before position head one other }
    ensures { IfOk result (IsNext pool.now graph.entry.nodes.now graph.entry.links.now graph.entry.numbers.now before position found.old.items found.new.items) }
{
    let way = position.way.as_slice();
    let rest = number_of(graph.numbers, one.1);
    let first = step(alloc, way, Frame::FirstOfTwo(head, rest), one.0, other.0)?;
    differences(alloc, pool, graph, before, first, found)?;
    let left = number_of(graph.numbers, other.0);
    let second = step(alloc, way, Frame::SecondOfTwo(head, left), one.1, other.1)?;
    Ok(second)
}

// Handles the first two parts of two nodes with equal head symbols, and returns the position of the third ones.
#[cycle(differences)]
fn three(
    alloc: Global,
    pool: &Pool,
    graph: Graph<'_>,
    before: usize,
    position: Position,
    head: Three,
    one: (usize, usize, usize),
    other: (usize, usize, usize),
    found: &mut Vec<Difference>,
) -> Result<Position, NoMemory>
    requires graph { IsGraph pool.now graph.nodes.now graph.links.now graph.numbers.now }
    requires history { IsHistory graph.links.now (length graph.links.now) graph.history.now }
    requires three { AreThree pool.now graph.nodes.now graph.links.now graph.numbers.now before position head one other }
    ensures { IfOk result (IsNext pool.now graph.entry.nodes.now graph.entry.links.now graph.entry.numbers.now before position found.old.items found.new.items) }
{
    let way = position.way.as_slice();
    let b = number_of(graph.numbers, one.1);
    let c = number_of(graph.numbers, one.2);
    let first = step(alloc, way, Frame::FirstOfThree(head, b, c), one.0, other.0)?;
    differences(alloc, pool, graph, before, first, found)?;
    let x = number_of(graph.numbers, other.0);
    let second = step(alloc, way, Frame::SecondOfThree(head, x, c), one.1, other.1)?;
    differences(alloc, pool, graph, before, second, found)?;
    let y = number_of(graph.numbers, other.1);
    let third = step(alloc, way, Frame::ThirdOfThree(head, x, y), one.2, other.2)?;
    Ok(third)
}

// Handles the parts of two nodes with equal head symbols, except for the last ones.
#[cycle(differences)]
pub(crate) fn parts(
    alloc: Global,
    pool: &Pool,
    graph: Graph<'_>,
    before: usize,
    position: Position,
    found: &mut Vec<Difference>,
) -> Result<Position, NoMemory>
    requires graph { IsGraph pool.now graph.nodes.now graph.links.now graph.numbers.now }
    requires history { IsHistory graph.links.now (length graph.links.now) graph.history.now }
    requires position { IsPosition pool.now graph.nodes.now graph.numbers.now position }
    requires differ { number_at graph.numbers.now position.one ≢ number_at graph.numbers.now position.other }
    requires alike { AreAlikeAt graph.nodes.now (Linked (take before graph.links.now)) position.one position.other }
    ensures { IfOk result (IsNext pool.now graph.entry.nodes.now graph.entry.links.now graph.entry.numbers.now before position found.old.items found.new.items) }
{
    pool.one_number();
    let one = node_of(graph.nodes, position.one);
    let other = node_of(graph.nodes, position.other);
    match pair_of(one, other) {
        Pair::One(head, a, x) => {
            let next = step(alloc, position.way.as_slice(), Frame::Only(head), a, x)?;
            Ok(next)
        }
        Pair::Two(head, one, other) => {
            two(
                alloc, pool, graph, before, position, head, one, other, found,
            )
        }
        Pair::Three(head, one, other) => {
            three(
                alloc, pool, graph, before, position, head, one, other, found,
            )
        }
        // Congruent nodes without parts have equal numbers.
        Pair::Unlike => Ok(position),
    }
}

// Handles a position of different items: adds a difference of terms, or handles the parts except for the last ones,
// whose position it returns.
#[cycle(differences)]
fn take_turn(
    alloc: Global,
    pool: &Pool,
    graph: Graph<'_>,
    before: usize,
    position: Position,
    found: &mut Vec<Difference>,
) -> Result<Option<Position>, NoMemory>
    requires graph { IsGraph pool.now graph.nodes.now graph.links.now graph.numbers.now }
    requires history { IsHistory graph.links.now (length graph.links.now) graph.history.now }
    requires position { IsPosition pool.now graph.nodes.now graph.numbers.now position }
    requires linked { Linked (take before graph.links.now) position.one position.other }
    requires differ { number_at graph.numbers.now position.one ≢ number_at graph.numbers.now position.other }
    ensures { IfOk result (IsTurn pool.now graph.entry.nodes.now graph.entry.links.now graph.entry.numbers.now before position found.old.items found.new.items) }
{
    let number = number_of(graph.numbers, position.one);
    let loose = is_loose(alloc, pool, position.way.as_slice(), number)?;
    if loose {
        push_term(alloc, graph, before, position, found)?;
        Ok(None)
    } else {
        let next = parts(alloc, pool, graph, before, position, found)?;
        Ok(Some(next))
    }
}

// Adds at the end the differences at a position.
#[cycle(differences)]
pub(crate) fn differences(
    alloc: Global,
    pool: &Pool,
    graph: Graph<'_>,
    before: usize,
    position: Position,
    found: &mut Vec<Difference>,
) -> Result<(), NoMemory>
    requires graph { IsGraph pool.now graph.nodes.now graph.links.now graph.numbers.now }
    requires history { IsHistory graph.links.now (length graph.links.now) graph.history.now }
    requires position { IsPosition pool.now graph.nodes.now graph.numbers.now position }
    requires linked { Linked (take before graph.links.now) position.one position.other }
    ensures { OnOk result (AreFound pool.now graph.entry.nodes.now graph.entry.links.now graph.entry.numbers.now before (one_at pool.now graph.entry.numbers.now position) (other_at pool.now graph.entry.numbers.now position) found.old.items found.new.items) }
{
    let mut position = position;
    while are_apart(graph.numbers, position.one, position.other) {
        match take_turn(alloc, pool, graph, before, position, found)? {
            Some(next) => position = next,
            None => return Ok(()),
        }
    }
    Ok(())
}

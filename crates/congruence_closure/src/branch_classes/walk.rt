//! The walk over a term or a formula that makes its nodes.

ghost use Rattle.std.specs.Prelude.{◌≡◌, ℕ, ◌<◌, ◌≤◌, ◌∷◌, Some, All, length, nat_eq, OnOk, IfOk, IfSome};
ghost use Rattle.indexmap.specs.IndexMap.{get};
ghost use Rattle.term_pool.specs.Pools.{IsMade};
ghost use Rattle.term_pool.specs.declared.node.Node.TheVariants.{One as OneNode, Two as TwoNode, Three as ThreeNode};
ghost use Rattle.congruence_closure.specs.States.{IsPart};
ghost use Rattle.congruence_closure.specs.Trees.{under};
ghost use Rattle.congruence_closure.specs.Nodes.{AreNodes};
ghost use Rattle.congruence_closure.specs.Numbers.{AreNumbered, AreMadeFor, StandsIn, IsNewFor, AreKnownFor, IsKnownFor};
ghost use Rattle.congruence_closure.specs.Known.{AreKnown, IsAdded, IsGrown, IsWalked};

use crate::branch_classes::leaves::{add_leaf, variable_of, with_variable};
use crate::branch_classes::numbered::{Numbered, add};
use base::memory::NoMemory;
use indexmap::IndexMap;
use std::alloc::Global;
use term_pool::node::{Node, One, Three, Two};
use term_pool::numbers::{look_up, note};
use term_pool::pool::Pool;

// The rest of a list that is not empty.
fn rest_of(list: Node) -> Option<usize>
    ensures { IfSome result (λ rest. IsPart rest list) }
{
    match list {
        Node::One(One::ConsByte(_), rest) => Some(rest),
        Node::Two(Two::ConsTerm | Two::ConsTrigger | Two::ConsFormula | Two::ConsType, _, rest) =>
            Some(rest),
        _ => None,
    }
}

// The rest of a list whose node is not known.
fn unknown_rest(known: &IndexMap<usize, usize>, pool: &Pool, list: usize) -> Option<usize>
    ensures less { IfSome result (λ rest. rest < list) }
    ensures inside { IfSome result (λ rest. StandsIn pool.now rest list) }
{
    if look_up(known, list).is_some() {
        return None;
    }
    match pool.node(list) {
        Some(node) => rest_of(node),
        None => None,
    }
}

// A list and its rests, from the front, up to the first known one.
fn unknown_lists(
    alloc: Global,
    known: &IndexMap<usize, usize>,
    pool: &Pool,
    list: usize,
) -> Result<Vec<usize>, NoMemory>
    ensures within { IfOk result (λ lists. All (λ it. it ≤ list) lists.items) }
    ensures inside { IfOk result (λ lists. All (λ it. StandsIn pool.now it list) lists.items) }
{
    let mut lists = Vec::new(alloc);
    let mut rest = list;
    while let Some(next) = unknown_rest(known, pool, rest) {
        lists.push(rest)?;
        rest = next;
    }
    Ok(lists)
}

// Makes a list and its rests known, the last one first, so that the recursion is not as deep as the list is long.
#[cycle(node_of)]
fn walk_list(
    alloc: Global,
    nodes: &mut Numbered,
    known: &mut IndexMap<usize, usize>,
    pool: &Pool,
    bound: &[u32],
    list: usize,
) -> Result<(), NoMemory>
    requires within { list < length pool.now }
    requires nodes { AreNodes nodes.old.classes.nodes }
    requires known { AreKnown pool.now nodes.old.classes.nodes bound.now (get nat_eq known.old) }
    requires numbered { AreNumbered pool.now nodes.old.classes.nodes nodes.old.numbers.items }
    requires made_for { AreMadeFor pool.now nodes.old.classes.nodes nodes.old.numbers.items (get nat_eq known.old) }
    ensures equations { OnOk result (nodes.new.classes.equations ≡ nodes.old.classes.equations) }
    ensures grown { OnOk result (IsGrown pool.now bound.now nodes.old.classes.nodes nodes.new.classes.nodes (get nat_eq known.old) (get nat_eq known.new)) }
    ensures numbered { OnOk result (AreKnownFor pool.now list nodes.old.classes.nodes nodes.new.classes.nodes nodes.old.numbers.items nodes.new.numbers.items (get nat_eq known.new)) }
{
    let lists = unknown_lists(alloc, known, pool, list)?;
    let mut rest = lists.len();
    while rest > 0 {
        rest -= 1;
        node_of(alloc, nodes, known, pool, bound, lists[rest])?;
    }
    Ok(())
}

#[cycle(node_of)]
fn one(
    alloc: Global,
    nodes: &mut Numbered,
    known: &mut IndexMap<usize, usize>,
    pool: &Pool,
    bound: &[u32],
    number: usize,
    head: One,
    a: usize,
) -> Result<usize, NoMemory>
    requires made { IsMade pool.now number (OneNode head a) }
    requires nodes { AreNodes nodes.old.classes.nodes }
    requires known { AreKnown pool.now nodes.old.classes.nodes bound.now (get nat_eq known.old) }
    requires numbered { AreNumbered pool.now nodes.old.classes.nodes nodes.old.numbers.items }
    requires made_for { AreMadeFor pool.now nodes.old.classes.nodes nodes.old.numbers.items (get nat_eq known.old) }
    ensures equations { OnOk result (nodes.new.classes.equations ≡ nodes.old.classes.equations) }
    ensures walked { IfOk result (λ node. IsWalked pool.now bound.now number nodes.old.classes.nodes nodes.new.classes.nodes (get nat_eq known.old) (get nat_eq known.new) node) }
    ensures numbered { IfOk result (λ node. IsKnownFor pool.now number nodes.old.classes.nodes nodes.new.classes.nodes nodes.old.numbers.items nodes.new.numbers.items (get nat_eq known.new) node) }
{
    walk_list(alloc, nodes, known, pool, bound, a)?;
    let a = node_of(alloc, nodes, known, pool, bound, a)?;
    add(alloc, nodes, Node::One(head, a), number)
}

#[cycle(node_of)]
fn two(
    alloc: Global,
    nodes: &mut Numbered,
    known: &mut IndexMap<usize, usize>,
    pool: &Pool,
    bound: &[u32],
    number: usize,
    head: Two,
    a: usize,
    b: usize,
) -> Result<usize, NoMemory>
    requires made { IsMade pool.now number (TwoNode head a b) }
    requires plain { under head bound.now ≡ bound.now }
    requires nodes { AreNodes nodes.old.classes.nodes }
    requires known { AreKnown pool.now nodes.old.classes.nodes bound.now (get nat_eq known.old) }
    requires numbered { AreNumbered pool.now nodes.old.classes.nodes nodes.old.numbers.items }
    requires made_for { AreMadeFor pool.now nodes.old.classes.nodes nodes.old.numbers.items (get nat_eq known.old) }
    ensures equations { OnOk result (nodes.new.classes.equations ≡ nodes.old.classes.equations) }
    ensures walked { IfOk result (λ node. IsWalked pool.now bound.now number nodes.old.classes.nodes nodes.new.classes.nodes (get nat_eq known.old) (get nat_eq known.new) node) }
    ensures numbered { IfOk result (λ node. IsKnownFor pool.now number nodes.old.classes.nodes nodes.new.classes.nodes nodes.old.numbers.items nodes.new.numbers.items (get nat_eq known.new) node) }
{
    walk_list(alloc, nodes, known, pool, bound, b)?;
    let a = node_of(alloc, nodes, known, pool, bound, a)?;
    let b = node_of(alloc, nodes, known, pool, bound, b)?;
    add(alloc, nodes, Node::Two(head, a, b), number)
}

#[cycle(node_of)]
fn three(
    alloc: Global,
    nodes: &mut Numbered,
    known: &mut IndexMap<usize, usize>,
    pool: &Pool,
    bound: &[u32],
    number: usize,
    head: Three,
    a: usize,
    b: usize,
    c: usize,
) -> Result<usize, NoMemory>
    requires made { IsMade pool.now number (ThreeNode head a b c) }
    requires nodes { AreNodes nodes.old.classes.nodes }
    requires known { AreKnown pool.now nodes.old.classes.nodes bound.now (get nat_eq known.old) }
    requires numbered { AreNumbered pool.now nodes.old.classes.nodes nodes.old.numbers.items }
    requires made_for { AreMadeFor pool.now nodes.old.classes.nodes nodes.old.numbers.items (get nat_eq known.old) }
    ensures equations { OnOk result (nodes.new.classes.equations ≡ nodes.old.classes.equations) }
    ensures walked { IfOk result (λ node. IsWalked pool.now bound.now number nodes.old.classes.nodes nodes.new.classes.nodes (get nat_eq known.old) (get nat_eq known.new) node) }
    ensures numbered { IfOk result (λ node. IsKnownFor pool.now number nodes.old.classes.nodes nodes.new.classes.nodes nodes.old.numbers.items nodes.new.numbers.items (get nat_eq known.new) node) }
{
    let a = node_of(alloc, nodes, known, pool, bound, a)?;
    let b = node_of(alloc, nodes, known, pool, bound, b)?;
    let c = node_of(alloc, nodes, known, pool, bound, c)?;
    add(alloc, nodes, Node::Three(head, a, b, c), number)
}

// A quantifier binds its variable in its parts, whose numbers have other nodes there.
#[cycle(node_of)]
fn quantified(
    alloc: Global,
    nodes: &mut Numbered,
    pool: &Pool,
    outside: &[u32],
    number: usize,
    head: Two,
    variable: u32,
    a: usize,
    b: usize,
) -> Result<usize, NoMemory>
    requires made { IsMade pool.now number (TwoNode head a b) }
    requires binds { under head outside.now ≡ variable ∷ outside.now }
    requires nodes { AreNodes nodes.old.classes.nodes }
    requires numbered { AreNumbered pool.now nodes.old.classes.nodes nodes.old.numbers.items }
    ensures equations { OnOk result (nodes.new.classes.equations ≡ nodes.old.classes.equations) }
    ensures added { IfOk result (λ node. IsAdded pool.now outside.now number nodes.old.classes.nodes nodes.new.classes.nodes node) }
    ensures numbered { IfOk result (λ node. IsNewFor pool.now number nodes.old.classes.nodes nodes.new.classes.nodes nodes.old.numbers.items nodes.new.numbers.items node) }
{
    let bound = with_variable(alloc, variable, outside)?;
    let mut known = IndexMap::new(alloc);
    let a = node_of(alloc, nodes, &mut known, pool, bound.as_slice(), a)?;
    let b = node_of(alloc, nodes, &mut known, pool, bound.as_slice(), b)?;
    add(alloc, nodes, Node::Two(head, a, b), number)
}

// Makes the node of a number from those of its parts.
#[cycle(node_of)]
fn make(
    alloc: Global,
    nodes: &mut Numbered,
    known: &mut IndexMap<usize, usize>,
    pool: &Pool,
    bound: &[u32],
    number: usize,
) -> Result<usize, NoMemory>
    requires within { number < length pool.now }
    requires nodes { AreNodes nodes.old.classes.nodes }
    requires known { AreKnown pool.now nodes.old.classes.nodes bound.now (get nat_eq known.old) }
    requires numbered { AreNumbered pool.now nodes.old.classes.nodes nodes.old.numbers.items }
    requires made_for { AreMadeFor pool.now nodes.old.classes.nodes nodes.old.numbers.items (get nat_eq known.old) }
    ensures equations { OnOk result (nodes.new.classes.equations ≡ nodes.old.classes.equations) }
    ensures walked { IfOk result (λ node. IsWalked pool.now bound.now number nodes.old.classes.nodes nodes.new.classes.nodes (get nat_eq known.old) (get nat_eq known.new) node) }
    ensures numbered { IfOk result (λ node. IsKnownFor pool.now number nodes.old.classes.nodes nodes.new.classes.nodes nodes.old.numbers.items nodes.new.numbers.items (get nat_eq known.new) node) }
{
    match pool.node(number) {
        Some(Node::Leaf(head)) => add_leaf(alloc, nodes, bound, number, head),
        Some(Node::One(head, a)) => one(alloc, nodes, known, pool, bound, number, head, a),
        Some(Node::Two(head, a, b)) => match variable_of(head) {
            Some(n) => quantified(alloc, nodes, pool, bound, number, head, n, a, b),
            None => two(alloc, nodes, known, pool, bound, number, head, a, b),
        },
        Some(Node::Three(head, a, b, c)) => {
            three(alloc, nodes, known, pool, bound, number, head, a, b, c)
        }
        None => Ok(0),
    }
}

/// Returns the node of a number of the pool under quantifiers of these variables, with the nodes of its parts; `known`
/// has the nodes so far under them.
#[cycle(node_of)]
pub(crate) fn node_of(
    alloc: Global,
    nodes: &mut Numbered,
    known: &mut IndexMap<usize, usize>,
    pool: &Pool,
    bound: &[u32],
    number: usize,
) -> Result<usize, NoMemory>
    requires within { number < length pool.now }
    requires nodes { AreNodes nodes.old.classes.nodes }
    requires known { AreKnown pool.now nodes.old.classes.nodes bound.now (get nat_eq known.old) }
    requires numbered { AreNumbered pool.now nodes.old.classes.nodes nodes.old.numbers.items }
    requires made_for { AreMadeFor pool.now nodes.old.classes.nodes nodes.old.numbers.items (get nat_eq known.old) }
    ensures equations { OnOk result (nodes.new.classes.equations ≡ nodes.old.classes.equations) }
    ensures walked { IfOk result (λ node. IsWalked pool.now bound.now number nodes.old.classes.nodes nodes.new.classes.nodes (get nat_eq known.old) (get nat_eq known.new) node) }
    ensures numbered { IfOk result (λ node. IsKnownFor pool.now number nodes.old.classes.nodes nodes.new.classes.nodes nodes.old.numbers.items nodes.new.numbers.items (get nat_eq known.new) node) }
    ensures found { IfOk result (λ node. get nat_eq known.new number ≡ Some node) }
{
    if let Some(node) = look_up(known, number) {
        return Ok(node);
    }
    let node = make(alloc, nodes, known, pool, bound, number)?;
    note(known, number, node)?;
    Ok(node)
}

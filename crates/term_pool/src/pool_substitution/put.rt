//! Substitution of a term for a variable, by number. Each item below is made once.

ghost use Rattle.std.specs.Prelude.{◌≡◌, ◌<◌, [], ◌∷◌, length, nat_eq, false, IfOk};
ghost use Rattle.std.specs.HashMap.{get};
ghost use Rattle.term_pool.specs.Items.{TermSort, leaf_item, one_item, two_item, three_item};
ghost use Rattle.term_pool.specs.Pools.{item_at, HasPart, HasParts, IsMade, IsItem, Extends};
ghost use Rattle.term_pool.specs.declared.node.Node.TheVariants.{Leaf as LeafNode, One as OneNode, Two as TwoNode, Three as ThreeNode};
ghost use Rattle.term_pool.specs.Values.{with_put, AreValues, binds, IsTurn, IsTurnAt};

use crate::node::{Leaf, Node, One, Three, Two};
use crate::pool::Pool;
use base::memory::NoMemory;
use std::alloc::Global;
use std::collections::HashMap;

/// A substitution: the term with this number, for the free occurrences of the variable.
#[derive(Clone, Copy)]
pub struct Put {
    pub variable: u32,
    pub term: usize,
}

// The number of the result for an item, or a part whose result is missing.
#[derive(Clone, Copy)]
pub(crate) enum Turn {
    Made(usize),
    Lacks(usize),
}

// The number of the result for the item with this number.
fn value(values: &HashMap<usize, usize>, number: usize) -> Option<usize>
    ensures { result ≡ get nat_eq values.now number }
{
    match values.get(&number) {
        Some(value) => Some(*value),
        None => None,
    }
}

// Decides whether the node binds the variable.
fn binds(head: Two, variable: u32) -> bool
    ensures { result ≡ binds head variable }
{
    match head {
        Two::Quantify(_, bound) => bound == variable,
        _ => false,
    }
}

fn put_in_leaf(pool: &Pool, put: Put, number: usize, head: Leaf) -> usize
    requires made { IsMade pool.now number (LeafNode head) }
    requires term { HasPart pool.now (length pool.now) put.term TermSort }
    ensures { IsItem pool.now result (with_put pool.now put (leaf_item head)) }
{
    match head {
        Leaf::Var(variable) => {
            if variable == put.variable {
                put.term
            } else {
                number
            }
        }
        _ => number,
    }
}

fn put_in_one(
    pool: &mut Pool,
    put: Put,
    values: &HashMap<usize, usize>,
    head: One,
    a: usize,
) -> Result<Turn, NoMemory>
    requires values { AreValues pool.old put (get nat_eq values.now) }
    requires parts { HasParts pool.old (length pool.old) (OneNode head a) }
    ensures extends { Extends pool.old pool.new }
    ensures is { IfOk result (IsTurn pool.new put (get nat_eq values.now) (a ∷ []) (one_item head (item_at pool.old a))) }
{
    let Some(first) = value(values, a) else {
        return Ok(Turn::Lacks(a));
    };
    let number = pool.insert(Node::One(head, first))?;
    Ok(Turn::Made(number))
}

fn put_in_two(
    pool: &mut Pool,
    put: Put,
    values: &HashMap<usize, usize>,
    head: Two,
    a: usize,
    b: usize,
) -> Result<Turn, NoMemory>
    requires values { AreValues pool.old put (get nat_eq values.now) }
    requires parts { HasParts pool.old (length pool.old) (TwoNode head a b) }
    requires free { binds head put.variable ≡ false }
    ensures extends { Extends pool.old pool.new }
    ensures is { IfOk result (IsTurn pool.new put (get nat_eq values.now) (a ∷ b ∷ []) (two_item head (item_at pool.old a) (item_at pool.old b))) }
{
    let Some(first) = value(values, a) else {
        return Ok(Turn::Lacks(a));
    };
    let Some(second) = value(values, b) else {
        return Ok(Turn::Lacks(b));
    };
    let number = pool.insert(Node::Two(head, first, second))?;
    Ok(Turn::Made(number))
}

fn put_in_three(
    pool: &mut Pool,
    put: Put,
    values: &HashMap<usize, usize>,
    head: Three,
    a: usize,
    b: usize,
    c: usize,
) -> Result<Turn, NoMemory>
    requires values { AreValues pool.old put (get nat_eq values.now) }
    requires parts { HasParts pool.old (length pool.old) (ThreeNode head a b c) }
    ensures extends { Extends pool.old pool.new }
    ensures is { IfOk result (IsTurn pool.new put (get nat_eq values.now) (a ∷ b ∷ c ∷ []) (three_item head (item_at pool.old a) (item_at pool.old b) (item_at pool.old c))) }
{
    let Some(first) = value(values, a) else {
        return Ok(Turn::Lacks(a));
    };
    let Some(second) = value(values, b) else {
        return Ok(Turn::Lacks(b));
    };
    let Some(third) = value(values, c) else {
        return Ok(Turn::Lacks(c));
    };
    let number = pool.insert(Node::Three(head, first, second, third))?;
    Ok(Turn::Made(number))
}

// Makes the result for the item with this number, if those of its parts were made.
fn put_at(
    pool: &mut Pool,
    put: Put,
    values: &HashMap<usize, usize>,
    number: usize,
) -> Result<Turn, NoMemory>
    requires values { AreValues pool.old put (get nat_eq values.now) }
    requires within { number < length pool.old }
    ensures extends { Extends pool.old pool.new }
    ensures is { IfOk result (IsTurnAt pool.new put (get nat_eq values.now) number) }
{
    match pool.node(number) {
        Some(Node::Leaf(head)) => Ok(Turn::Made(put_in_leaf(pool, put, number, head))),
        Some(Node::One(head, a)) => put_in_one(pool, put, values, head, a),
        Some(Node::Two(head, a, b)) => {
            if binds(head, put.variable) {
                return Ok(Turn::Made(number));
            }
            put_in_two(pool, put, values, head, a, b)
        }
        Some(Node::Three(head, a, b, c)) => put_in_three(pool, put, values, head, a, b, c),
        None => Ok(Turn::Made(number)),
    }
}

/// Returns the number of an item with the term substituted. It takes the time of a walk over the items below it, each
/// of them once.
pub fn put_in(alloc: Global, pool: &mut Pool, put: Put, top: usize) -> Result<usize, NoMemory>
    requires within { top < length pool.old }
    requires term { HasPart pool.old (length pool.old) put.term TermSort }
    ensures extends { Extends pool.old pool.new }
    ensures is { IfOk result (λ number. IsItem pool.new number (with_put pool.old put (item_at pool.old top))) }
{
    let mut values: HashMap<usize, usize> = HashMap::new(alloc);
    // The stack of items that wait for one of their parts.
    let mut waiting = Vec::new(alloc);
    let mut number = top;
    loop {
        let made = match put_at(pool, put, &values, number)? {
            Turn::Lacks(part) => {
                waiting.push(number)?;
                number = part;
                continue;
            }
            Turn::Made(made) => made,
        };
        let Some(next) = waiting.pop() else {
            return Ok(made);
        };
        values.insert(number, made)?;
        number = next;
    }
}

//! Comparison of nodes part by part.

ghost use Rattle.std.specs.Prelude.{◌≡◌, ◌↔◌, ◌++◌, length, All, false, IfOk, OnOk, IsTrue};
ghost use Rattle.substitution.specs.Free.{free_in};
ghost use Rattle.term_pool.specs.Pools.{HasParts};
ghost use Rattle.tableau.specs.PoolBranches.{IsFormulaNumber};
ghost use Rattle.ematching.specs.Numbers.{formula_at};
ghost use Rattle.ematching.specs.Fits.{refilled, asked, condition_of, IsClearNode, IsBoundNode};

use crate::walk::free_at;
use base::memory::NoMemory;
use std::alloc::Global;
use term_pool::node::{Leaf, Node, Three, Two};
use term_pool::pool::Pool;

// The first node with the parts of the second; its types, and the condition of an `If`, are unchanged.
pub(crate) fn refilled(left: Node, right: Node) -> Node
    ensures { result ≡ refilled left right }
{
    match (left, right) {
        (Node::One(h, _), Node::One(_, b)) => Node::One(h, b),
        (Node::Two(Two::Pack, a, _), Node::Two(_, _, d)) => Node::Two(Two::Pack, a, d),
        (Node::Two(Two::Field(k), a, _), Node::Two(_, _, d)) => Node::Two(Two::Field(k), a, d),
        (Node::Two(Two::Is, a, _), Node::Two(_, _, d)) => Node::Two(Two::Is, a, d),
        (Node::Two(h, _, _), Node::Two(_, c, d)) => Node::Two(h, c, d),
        (Node::Three(Three::SetField(k), a, _, _), Node::Three(_, _, e, f)) => {
            Node::Three(Three::SetField(k), a, e, f)
        }
        (Node::Three(Three::If, a, _, _), Node::Three(_, _, e, f)) => {
            Node::Three(Three::If, a, e, f)
        }
        (Node::Three(h, _, _, _), Node::Three(_, d, e, f)) => Node::Three(h, d, e, f),
        (left, _) => left,
    }
}

// Adds the parts of two nodes, pair by pair, to the waiting pairs.
pub(crate) fn wait_for_pairs(
    waiting: &mut Vec<(usize, usize)>,
    left: Node,
    right: Node,
) -> Result<(), NoMemory>
    ensures { OnOk result (waiting.new.items ≡ waiting.old.items ++ asked left right) }
{
    match (left, right) {
        (Node::One(_, a), Node::One(_, b)) => waiting.push((a, b))?,
        (Node::Two(Two::Pack | Two::Field(_) | Two::Is, _, b), Node::Two(_, _, d)) => {
            waiting.push((b, d))?;
        }
        (Node::Two(_, a, b), Node::Two(_, c, d)) => {
            waiting.push((a, c))?;
            waiting.push((b, d))?;
        }
        (Node::Three(Three::SetField(_) | Three::If, _, b, c), Node::Three(_, _, e, f)) => {
            waiting.push((b, e))?;
            waiting.push((c, f))?;
        }
        (Node::Three(_, a, b, c), Node::Three(_, d, e, f)) => {
            waiting.push((a, d))?;
            waiting.push((b, e))?;
            waiting.push((c, f))?;
        }
        _ => {}
    }
    Ok(())
}

// Decides whether the node is one of the variables.
pub(crate) fn is_bound(bound: &[u32], node: Node) -> bool
    ensures { IsTrue result ↔ IsBoundNode bound.now node }
{
    match node {
        Node::Leaf(Leaf::Var(variable)) => bound.contains(&variable),
        _ => false,
    }
}

// Decides whether none of the variables is free in the formula.
fn are_free_of(
    alloc: Global,
    pool: &Pool,
    variables: &[u32],
    formula: usize,
) -> Result<bool, NoMemory>
    requires { IsFormulaNumber pool.now formula }
    ensures { IfOk result (λ r. IsTrue r ↔ All (λ n. free_in n (formula_at pool.now formula) ≡ false) variables.now) }
{
    for variable in variables {
        let found = free_at(alloc, pool, *variable, formula)?;
        if let Some(_) = found {
            return Ok(false);
        }
    }
    Ok(true)
}

fn condition_of(node: Node) -> Option<usize>
    ensures { result ≡ condition_of node }
{
    match node {
        Node::Three(Three::If, condition, _, _) => Some(condition),
        _ => None,
    }
}

// Decides whether none of the variables is free in the condition of the node, if it has one.
pub(crate) fn is_clear(
    alloc: Global,
    pool: &Pool,
    bound: &[u32],
    node: Node,
) -> Result<bool, NoMemory>
    requires { HasParts pool.now (length pool.now) node }
    ensures { IfOk result (λ r. IsTrue r ↔ IsClearNode pool.now bound.now node) }
{
    match condition_of(node) {
        Some(condition) => are_free_of(alloc, pool, bound, condition),
        None => Ok(true),
    }
}

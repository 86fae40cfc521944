//! Walks that find free and bound variables. They visit a shared part once.

ghost use Rattle.std.specs.Prelude.{◌≡◌, ◌↔◌, ◌++◌, ◌<◌, length, slice_get, Some, false, IfOk, OnOk, IsTrue, MatchOption};
ghost use Rattle.term_pool.specs.Pools.{item_at};
ghost use Rattle.term_pool.specs.declared.node.Leaf.TheVariants.{Var};
ghost use Rattle.term_pool.specs.declared.node.Node.TheVariants.{Leaf as LeafNode};
ghost use Rattle.tableau.specs.PoolBranches.{IsFormulaNumber};
ghost use Rattle.ematching.specs.Walks.{free_in_item, free_parts, binding_parts, parts_on, bound_of, AreReached, IsTurn, IsFreeAt, Binds, BindsNone, AreBound};

use base::memory::NoMemory;
use std::alloc::Global;
use tableau::log::Log;
use term_pool::node::{Leaf, Node, One, Three, Two, are_one};
use term_pool::pool::Pool;

// The parts of a node that a walk visits.
#[derive(Clone, Copy)]
pub(crate) enum Way {
    // The parts in which this variable may be free.
    Free(u32),
    // The parts that may bind variables outside terms.
    Bound,
}

fn wait_for_free(waiting: &mut Vec<usize>, variable: u32, node: Node) -> Result<(), NoMemory>
    ensures { OnOk result (waiting.new.items ≡ waiting.old.items ++ free_parts variable node) }
{
    match node {
        Node::Leaf(_) => {}
        Node::One(_, a) | Node::Two(Two::Pack | Two::Field(_) | Two::Is, _, a) => {
            waiting.push(a)?;
        }
        Node::Two(Two::Quantify(_, bound), a, b) => {
            if variable != bound {
                waiting.push(a)?;
                waiting.push(b)?;
            }
        }
        Node::Two(_, a, b) | Node::Three(Three::SetField(_), _, a, b) => {
            waiting.push(a)?;
            waiting.push(b)?;
        }
        Node::Three(_, a, b, c) => {
            waiting.push(a)?;
            waiting.push(b)?;
            waiting.push(c)?;
        }
    }
    Ok(())
}

fn wait_for_formulas(waiting: &mut Vec<usize>, node: Node) -> Result<(), NoMemory>
    ensures { OnOk result (waiting.new.items ≡ waiting.old.items ++ binding_parts node) }
{
    match node {
        Node::One(One::Not | One::Join(_), a) | Node::Two(Two::Quantify(_, _), _, a) => {
            waiting.push(a)?;
        }
        Node::Two(Two::Connect(_) | Two::ConsFormula, a, b) => {
            waiting.push(a)?;
            waiting.push(b)?;
        }
        _ => {}
    }
    Ok(())
}

fn wait_for_parts(waiting: &mut Vec<usize>, way: Way, node: Node) -> Result<(), NoMemory>
    ensures { OnOk result (waiting.new.items ≡ waiting.old.items ++ parts_on way node) }
{
    match way {
        Way::Free(variable) => wait_for_free(waiting, variable, node),
        Way::Bound => wait_for_formulas(waiting, node),
    }
}

// Visits a number if it was not seen before; its parts are then waiting.
fn take_turn(
    pool: &Pool,
    way: Way,
    number: usize,
    seen: &mut Log,
    numbers: &mut Vec<usize>,
    waiting: &mut Vec<usize>,
) -> Result<(), NoMemory>
    requires { number < length pool.now }
    ensures { OnOk result (IsTurn pool.now way number seen.old numbers.old.items waiting.old.items seen.new numbers.new.items waiting.new.items) }
{
    if let Some(_) = seen.value(number) {
        return Ok(());
    }
    if let Some(node) = pool.node(number) {
        seen.write(pool.len(), number, 0)?;
        numbers.push(number)?;
        wait_for_parts(waiting, way, node)?;
    }
    Ok(())
}

// The numbers that a walk from the top reaches.
fn reached(alloc: Global, pool: &Pool, way: Way, top: usize) -> Result<Vec<usize>, NoMemory>
    requires { top < length pool.now }
    ensures { IfOk result (λ numbers. AreReached pool.now way top numbers.items) }
{
    let mut seen = Log::new(alloc);
    let mut numbers = Vec::new(alloc);
    let mut waiting = Vec::new(alloc);
    waiting.push(top)?;
    while let Some(number) = waiting.pop() {
        take_turn(pool, way, number, &mut seen, &mut numbers, &mut waiting)?;
    }
    Ok(numbers)
}

// Decides whether the number is that of the variable.
pub(crate) fn is_variable(pool: &Pool, number: usize, variable: u32) -> bool
    ensures { IsTrue result ↔ (slice_get pool.now number ≡ Some (LeafNode (Var variable))) }
{
    match pool.node(number) {
        Some(node) => are_one(node, Node::Leaf(Leaf::Var(variable))),
        None => false,
    }
}

/// The number of the variable, if it is free in the item.
pub(crate) fn free_at(
    alloc: Global,
    pool: &Pool,
    variable: u32,
    top: usize,
) -> Result<Option<usize>, NoMemory>
    requires { top < length pool.now }
    ensures { IfOk result (λ found. MatchOption found (free_in_item variable (item_at pool.now top) ≡ false) (IsFreeAt pool.now variable top)) }
{
    let numbers = reached(alloc, pool, Way::Free(variable), top)?;
    for number in &numbers {
        if is_variable(pool, *number, variable) {
            return Ok(Some(*number));
        }
    }
    Ok(None)
}

fn bound_of(node: Node) -> Option<u32>
    ensures { result ≡ bound_of node }
{
    match node {
        Node::Two(Two::Quantify(_, variable), _, _) => Some(variable),
        _ => None,
    }
}

// The variable that the node with this number binds.
fn bound_at(pool: &Pool, number: usize) -> Option<u32>
    ensures { MatchOption result (BindsNone pool.now number) (Binds pool.now number) }
{
    match pool.node(number) {
        Some(node) => bound_of(node),
        None => None,
    }
}

/// The variable, and those that the body binds outside terms, possibly with duplicates.
pub(crate) fn bound_variables(
    alloc: Global,
    pool: &Pool,
    variable: u32,
    body: usize,
) -> Result<Vec<u32>, NoMemory>
    requires { IsFormulaNumber pool.now body }
    ensures { IfOk result (λ variables. AreBound pool.now variable body variables.items) }
{
    let mut variables = Vec::new(alloc);
    variables.push(variable)?;
    let numbers = reached(alloc, pool, Way::Bound, body)?;
    for number in &numbers {
        let Some(bound) = bound_at(pool, *number) else {
            continue;
        };
        variables.push(bound)?;
    }
    Ok(variables)
}

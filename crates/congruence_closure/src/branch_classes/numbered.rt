//! Nodes with their classes, each with the number of the pool for which it was made.

ghost use Rattle.std.specs.Prelude.{◌≡◌, ◌<◌, ◌∷◌, ◌++◌, [], length, OnOk, IfOk};
ghost use Rattle.congruence_closure.specs.Congruence.{IsWithin};

use crate::classes::Classes;
use base::memory::NoMemory;
use std::alloc::Global;
use std::mem;
use term_pool::node::Node;

/// The classes of nodes, with a number of the pool for each node.
#[derive(Drop)]
pub(crate) struct Numbered {
    pub classes: Classes,
    pub numbers: Vec<usize>,
}

/// No nodes.
pub(crate) fn nothing(alloc: Global) -> Numbered
    ensures nodes { result.classes.nodes ≡ [] }
    ensures equations { result.classes.equations ≡ [] }
    ensures numbers { result.numbers.items ≡ [] }
{
    Numbered {
        classes: Classes::new(alloc),
        numbers: Vec::new(alloc),
    }
}

/// Adds a node for this number at the end, and returns the node's number.
pub(crate) fn add(
    alloc: Global,
    nodes: &mut Numbered,
    node: Node,
    number: usize,
) -> Result<usize, NoMemory>
    requires { IsWithin (length nodes.old.classes.nodes) node }
    ensures number { IfOk result (λ position. position ≡ length nodes.old.classes.nodes) }
    ensures nodes { OnOk result (nodes.new.classes.nodes ≡ nodes.old.classes.nodes ++ node ∷ []) }
    ensures numbers { OnOk result (nodes.new.numbers.items ≡ nodes.old.numbers.items ++ number ∷ []) }
    ensures equations { OnOk result (nodes.new.classes.equations ≡ nodes.old.classes.equations) }
{
    let position = nodes.classes.len();
    let before = mem::replace(&mut nodes.classes, Classes::new(alloc));
    nodes.classes = before.with_node(node)?;
    nodes.numbers.push(number)?;
    Ok(position)
}

/// Joins two nodes by an equation.
pub(crate) fn join(nodes: Numbered, left: usize, right: usize) -> Result<Numbered, NoMemory>
    requires left { left < length nodes.classes.nodes }
    requires right { right < length nodes.classes.nodes }
    ensures nodes { IfOk result (λ new. new.classes.nodes ≡ nodes.classes.nodes) }
    ensures numbers { IfOk result (λ new. new.numbers.items ≡ nodes.numbers.items) }
    ensures equations { IfOk result (λ new. new.classes.equations ≡ nodes.classes.equations ++ record { left = left; right = right } ∷ []) }
{
    let classes = nodes.classes.with_equation(left, right)?;
    Ok(Numbered {
        classes,
        numbers: nodes.numbers,
    })
}

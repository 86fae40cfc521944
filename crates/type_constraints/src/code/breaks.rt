//! The loops that `break`s belong to.

ghost use Rattle.std.specs.Prelude.{◌≡◌, ◌<◌, List, All, map, length, IfOk};
ghost use Rattle.program.specs.Trees.{IsBelow, tree_of, trees, trees_of, at};
ghost use Rattle.typing_rules.specs.Jumps.{CodeTree, has_break, have_break};
ghost use Rattle.type_constraints.specs.CodeKnown.{TellsBreaks};

use base::memory::NoMemory;
use program::arena::Node;
use program::code::{Body, CodeBinary, CodeLeaf, CodeMany, CodeUnary};
use std::alloc::Global;

/// Decides whether one of these parts has a `break` that belongs to a loop outside it.
fn any_break(known: &[bool], parts: &[usize]) -> bool
    requires { All (λ p. p < length known.now) parts.now }
    ensures { (ts : List CodeTree) → TellsBreaks known.now ts → result ≡ have_break (trees_of (map (at ts) parts.now)) }
{
    let mut found = false;
    for part in parts {
        found = found || known[*part];
    }
    found
}

/// Decides whether the tree of a node has such a `break`, given the results for the nodes before it.
fn node_breaks(known: &[bool], node: &Node<CodeLeaf, CodeUnary, CodeBinary, CodeMany>) -> bool
    requires { IsBelow (length known.now) node.now }
    ensures { (ts : List CodeTree) → TellsBreaks known.now ts → result ≡ has_break (tree_of ts node.now) }
{
    match node {
        Node::Leaf(CodeLeaf::Break) => true,
        Node::Leaf(_) => false,
        Node::Unary(CodeUnary::Loop, _) => false,
        Node::Unary(_, part) => known[*part],
        Node::Binary(CodeBinary::While, condition, _) => known[*condition],
        Node::Binary(_, left, right) => known[*left] || known[*right],
        Node::If(condition, left, right) => known[*condition] || (known[*left] || known[*right]),
        Node::Many(_, parts) => any_break(known, parts.as_slice()),
    }
}

/// Returns for each node whether a `break` in its tree belongs to a loop outside it.
pub fn breaks_of(alloc: Global, body: &Body) -> Result<Vec<bool>, NoMemory>
    ensures len { IfOk result (λ known. length known.items ≡ length body.now.nodes) }
    ensures known { IfOk result (λ known. TellsBreaks known.items (trees body.now.nodes)) }
{
    let mut known = Vec::new(alloc);
    for index in 0..body.len() {
        let found = node_breaks(known.as_slice(), body.node(index));
        known.push(found)?;
    }
    Ok(known)
}

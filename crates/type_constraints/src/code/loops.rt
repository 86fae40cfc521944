//! The nodes that are in the bodies of loops.

ghost use Rattle.std.specs.Prelude.{◌≡◌, ◌<◌, ◌≤◌, ◌+◌, ◌&&◌, ◌||◌, ℕ, List, All, false, ltb, map, length, IfOk, IfSome, slice_index_or};
ghost use Rattle.program.specs.Listed.{inner_all, subtrees};
ghost use Rattle.program.specs.Trees.{IsBelow, at, tree_of, trees, trees_of};
ghost use Rattle.typing_rules.specs.Jumps.{CodeTree, loop_body, stands_in_body};
ghost use Rattle.program.specs.CodeNodes.{CodeNode};
ghost use Rattle.type_constraints.specs.CodeKnown.{TellsLoops, TellsSizes};

use crate::numbers::sum;
use base::memory::NoMemory;
use program::arena::Node;
use program::code::{Body, CodeBinary, CodeLeaf, CodeMany, CodeUnary};
use std::alloc::Global;

/// The number of nodes of the trees of these parts.
fn sizes_sum(known: &[usize], parts: &[usize]) -> Result<usize, NoMemory>
    requires { All (λ p. p < length known.now) parts.now }
    ensures { IfOk result (λ total. (ts : List CodeTree) → TellsSizes known.now ts → total ≡ length (inner_all (trees_of (map (at ts) parts.now)))) }
{
    let mut total = 0;
    for part in parts {
        total = sum(total, known[*part])?;
    }
    Ok(total)
}

/// The number of nodes of the tree of a node, given those of the nodes before it.
fn node_size(
    known: &[usize],
    node: &Node<CodeLeaf, CodeUnary, CodeBinary, CodeMany>,
) -> Result<usize, NoMemory>
    requires { IsBelow (length known.now) node.now }
    ensures { IfOk result (λ size. (ts : List CodeTree) → TellsSizes known.now ts → size ≡ length (subtrees (tree_of ts node.now))) }
{
    let inside = match node {
        Node::Leaf(_) => 0,
        Node::Unary(_, part) => known[*part],
        Node::Binary(_, left, right) => sum(known[*left], known[*right])?,
        Node::If(condition, left, right) => {
            sum(sum(known[*condition], known[*left])?, known[*right])?
        }
        Node::Many(_, parts) => sizes_sum(known, parts.as_slice())?,
    };
    sum(inside, 1)
}

/// The number of nodes of the tree of each node.
fn sizes_of(alloc: Global, body: &Body) -> Result<Vec<usize>, NoMemory>
    ensures len { IfOk result (λ known. length known.items ≡ length body.now.nodes) }
    ensures known { IfOk result (λ known. TellsSizes known.items (trees body.now.nodes)) }
{
    let mut known = Vec::new(alloc);
    for index in 0..body.len() {
        let size = node_size(known.as_slice(), body.node(index))?;
        known.push(size)?;
    }
    Ok(known)
}

/// The body of the node with the number `index`, if it is a loop.
fn body_of(node: &Node<CodeLeaf, CodeUnary, CodeBinary, CodeMany>, index: usize) -> Option<usize>
    requires { IsBelow index node.now }
    ensures body { result ≡ loop_body node.now }
    ensures below { IfSome result (λ body. body < index) }
{
    match node {
        Node::Unary(CodeUnary::Loop, body) => Some(*body),
        Node::Binary(CodeBinary::While, _, body) => Some(*body),
        _ => None,
    }
}

/// Marks the nodes of a body with so many nodes, the last of which is its root.

fn mark(known: &mut Vec<bool>, body: usize, size: usize)
    requires { body < length known.old.items }
    ensures len { length known.new.items ≡ length known.old.items }
    ensures marked { (n : ℕ) → n < length known.old.items → slice_index_or known.new.items n false ≡ (slice_index_or known.old.items n false || (ltb n (body + 1) && ltb body (n + size))) }
{
    let first = (body + 1).saturating_sub(size);
    for variable in first..body + 1 {
        known[variable] = true;
    }
}

/// Marks the body of a node, if it is a loop.
fn mark_node(
    known: &mut Vec<bool>,
    sizes: &[usize],
    node: &Node<CodeLeaf, CodeUnary, CodeBinary, CodeMany>,
    index: usize,
)
    requires below { IsBelow index node.now }
    requires within { index < length known.old.items }
    requires sizes { length sizes.now ≡ length known.old.items }
    ensures len { length known.new.items ≡ length known.old.items }
    ensures marked { (nodes : List CodeNode) → TellsSizes sizes.now (trees nodes) → (n : ℕ) → n < length known.old.items → slice_index_or known.new.items n false ≡ (slice_index_or known.old.items n false || stands_in_body nodes n (loop_body node.now)) }
{
    if let Some(body) = body_of(node, index) {
        mark(known, body, sizes[body]);
    }
}

/// Returns for each node whether it is in the body of a loop.
pub fn loops_of(alloc: Global, body: &Body) -> Result<Vec<bool>, NoMemory>
    ensures len { IfOk result (λ known. length known.items ≡ length body.now.nodes) }
    ensures known { IfOk result (λ known. TellsLoops known.items body.now.nodes body.now.nodes) }
{
    let sizes = sizes_of(alloc, body)?;
    let mut known = vec![in alloc; false; body.len()]?;
    for index in 0..body.len() {
        mark_node(&mut known, sizes.as_slice(), body.node(index), index);
    }
    Ok(known)
}

//! The type variables of the whole values of `e;`.

ghost use Rattle.std.specs.Prelude.{◌≡◌, ◌<◌, ◌++◌, All, length, flat_map, IfOk, OnOk};
ghost use Rattle.program.specs.Trees.{IsBelow};
ghost use Rattle.typing_rules.specs.CodeSystems.{dropped_by};

use base::memory::NoMemory;
use program::arena::Node;
use program::code::{Body, CodeBinary, CodeLeaf, CodeMany, CodeUnary};
use std::alloc::Global;

/// Adds the type variable whose value a node drops.
fn add_dropped(
    dropped: &mut Vec<usize>,
    index: usize,
    node: &Node<CodeLeaf, CodeUnary, CodeBinary, CodeMany>,
) -> Result<(), NoMemory>
    requires below { IsBelow index node.now }
    requires within { All (λ p. p < index) dropped.old.items }
    ensures are { OnOk result (dropped.new.items ≡ dropped.old.items ++ dropped_by node.now) }
    ensures within { OnOk result (All (λ p. p < index) dropped.new.items) }
{
    match node {
        Node::Unary(CodeUnary::Discard, item) => {
            dropped.push(*item)?;
            Ok(())
        }
        _ => Ok(()),
    }
}

/// The type variables of the whole values of `e;`, node by node.
pub fn dropped_variables(alloc: Global, body: &Body) -> Result<Vec<usize>, NoMemory>
    ensures are { IfOk result (λ dropped. dropped.items ≡ flat_map dropped_by body.now.nodes) }
    ensures within { IfOk result (λ dropped. All (λ p. p < length body.now.nodes) dropped.items) }
{
    let mut dropped = Vec::new(alloc);
    for index in 0..body.len() {
        add_dropped(&mut dropped, index, body.node(index))?;
    }
    Ok(dropped)
}

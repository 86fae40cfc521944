//! Which nodes are taken as lvalues.

ghost use Rattle.std.specs.Prelude.{◌≡◌, ◌<◌, ◌||◌, ℕ, false, length, Some, IfOk, slice_index_or};
ghost use Rattle.program.specs.Trees.{IsBelow};
ghost use Rattle.typing_rules.specs.Required.{is_local, is_place, takes_place};
ghost use Rattle.ability_rules.specs.Bodies.{TellsTaken};

use base::memory::NoMemory;
use program::arena::Node;
use program::code::{Body, CodeBinary, CodeLeaf, CodeMany, CodeUnary, LocalUse};
use std::alloc::Global;

/// Marks the node that this one, whose number is `index`, takes as an lvalue.
fn mark(taken: &mut Vec<bool>, node: &Node<CodeLeaf, CodeUnary, CodeBinary, CodeMany>, index: usize)
    requires below { IsBelow index node.now }
    requires within { index < length taken.old.items }
    ensures len { length taken.new.items ≡ length taken.old.items }
    ensures marked { (n : ℕ) → n < length taken.old.items → slice_index_or taken.new.items n false ≡ (slice_index_or taken.old.items n false || takes_place n node.now) }
{
    match node {
        Node::Unary(CodeUnary::Borrow, part) => taken[*part] = true,
        Node::Unary(CodeUnary::BorrowMutable, part) => taken[*part] = true,
        Node::Unary(CodeUnary::Field(_), part) => taken[*part] = true,
        Node::Binary(CodeBinary::Assign, part, _) => taken[*part] = true,
        _ => {}
    }
}

/// Returns for each node whether another node takes it as an lvalue, and not its value.
pub(crate) fn taken_of(alloc: Global, body: &Body) -> Result<Vec<bool>, NoMemory>
    ensures { IfOk result (λ taken. TellsTaken taken.items body.now.nodes) }
{
    let mut taken = vec![in alloc; false; body.len()]?;
    for variable in 0..body.len() {
        mark(&mut taken, body.node(variable), variable);
    }
    Ok(taken)
}

/// Decides whether the node is an lvalue.
pub(crate) fn is_place(node: &Node<CodeLeaf, CodeUnary, CodeBinary, CodeMany>) -> bool
    ensures { result ≡ is_place (Some node.now) }
{
    match node {
        Node::Leaf(CodeLeaf::Local(LocalUse::Plain, _)) => true,
        Node::Unary(CodeUnary::Dereference, _) => true,
        Node::Unary(CodeUnary::Field(_), _) => true,
        _ => false,
    }
}

/// Decides whether the node is a local.
pub(crate) fn is_local(node: &Node<CodeLeaf, CodeUnary, CodeBinary, CodeMany>) -> bool
    ensures { result ≡ is_local (Some node.now) }
{
    match node {
        Node::Leaf(CodeLeaf::Local(LocalUse::Plain, _)) => true,
        _ => false,
    }
}

//! The constraints of lvalues that are assigned or borrowed mutably.

ghost use Rattle.std.specs.Prelude.{◌≡◌, ◌++◌, ◌+◌, ◌<◌, ◌∷◌, [], length, OnOk, Some, slice_get};
ghost use Rattle.typing_rules.specs.CodeConstraints.{assigned_constraints, base_constraint, borrowed_constraints, owner_constraints};
ghost use Rattle.type_constraints.specs.Seen.{seen, seen_all};
ghost use Rattle.type_constraints.specs.Ways.{otherwise, is_field_of};

use crate::constraint::{Constraint, add};
use base::memory::NoMemory;
use program::arena::Node;
use program::code::{Body, CodeBinary, CodeLeaf, CodeMany, CodeUnary, LocalUse};

type CodeNode = Node<CodeLeaf, CodeUnary, CodeBinary, CodeMany>;

/// The constraint of a node that is no field access, at the end of the way.
fn base_of<'a>(node: &CodeNode, behind: bool, at: usize) -> Constraint<'a>
    ensures { seen result ≡ base_constraint (otherwise behind) at (Some node.now) }
{
    match node {
        Node::Leaf(CodeLeaf::Local(LocalUse::Plain, _)) => Constraint::Through(at),
        Node::Unary(CodeUnary::Dereference, reference) => Constraint::Through(*reference),
        _ => {
            if behind {
                Constraint::Behind(at)
            } else {
                Constraint::Through(at)
            }
        }
    }
}

/// The owner of the field that the node accesses, if it is a field access.
fn field_owner(node: &CodeNode) -> Option<usize>
    ensures { result ≡ is_field_of (Some node.now) }
{
    match node {
        Node::Unary(CodeUnary::Field(_), owner) => Some(*owner),
        _ => None,
    }
}

/// The constraint of the owner of a field that is assigned, if `behind` is true, or else borrowed mutably.
fn owner_constraint<'a>(body: &Body, behind: bool, owner: usize) -> Constraint<'a>
    requires { owner < length body.now.nodes }
    ensures { owner_constraints (otherwise behind) body.now.nodes (owner + 1) owner ≡ seen result ∷ [] }
{
    let mut at = owner;
    let mut left = owner;
    loop {
        let node = body.node(at);
        match field_owner(node) {
            Some(next) => {
                at = next;
                left -= 1;
            }
            None => return base_of(node, behind, at),
        }
    }
}

/// Adds the constraints of `&mut` on its operand.
pub fn add_borrowed<'a>(
    constraints: &mut Vec<Constraint<'a>>,
    body: &Body,
    index: usize,
) -> Result<(), NoMemory>
    requires { index < length body.now.nodes }
    ensures { OnOk result (seen_all constraints.new.items ≡ seen_all constraints.old.items ++ borrowed_constraints body.now.nodes (slice_get body.now.nodes index)) }
{
    match body.node(index) {
        Node::Unary(CodeUnary::Dereference, reference) => {
            add(constraints, &[Constraint::Through(*reference)])
        }
        Node::Unary(CodeUnary::Field(_), owner) => {
            let required = owner_constraint(body, false, *owner);
            add(constraints, &[required])
        }
        _ => Ok(()),
    }
}

/// Adds the constraints of an assignment on its left side.
pub fn add_assigned<'a>(
    constraints: &mut Vec<Constraint<'a>>,
    body: &Body,
    index: usize,
) -> Result<(), NoMemory>
    requires { index < length body.now.nodes }
    ensures { OnOk result (seen_all constraints.new.items ≡ seen_all constraints.old.items ++ assigned_constraints body.now.nodes (slice_get body.now.nodes index)) }
{
    match body.node(index) {
        Node::Leaf(CodeLeaf::Local(LocalUse::Plain, _)) => Ok(()),
        Node::Unary(CodeUnary::Dereference, reference) => {
            add(constraints, &[Constraint::Through(*reference)])
        }
        Node::Unary(CodeUnary::Field(_), owner) => {
            let required = owner_constraint(body, true, *owner);
            add(constraints, &[required])
        }
        _ => add(constraints, &[Constraint::Barred]),
    }
}

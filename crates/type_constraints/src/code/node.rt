//! The constraints of nodes of code.

ghost use Rattle.std.specs.Prelude.{◌≡◌, ◌++◌, length, OnOk};
ghost use Rattle.program.specs.Trees.{IsBelow};
ghost use Rattle.typing_rules.specs.CodeConstraints.{constraints_at};
ghost use Rattle.type_constraints.specs.Seen.{seen_all};
ghost use Rattle.type_constraints.specs.CodeSettings.{AreJumpsOf, setting_of};

use crate::code::inner::{add_binary, add_unary};
use crate::code::leaf::add_leaf;
use crate::code::many::add_many;
use crate::code::setting::{CodeSetting, Jumps};
use crate::constraint::{Constraint, PlainType, add, has};
use base::memory::NoMemory;
use program::arena::Node;
use program::code::{CodeBinary, CodeLeaf, CodeMany, CodeUnary};

/// Appends the constraints of the node with the number `variable`, whose type arguments are the type variables from
/// `first` on, with these loops around it. After `NoMemory` some of the constraints may be there.
pub fn add_node<'a>(
    constraints: &mut Vec<Constraint<'a>>,
    setting: CodeSetting<'a>,
    variable: usize,
    first: usize,
    jumps: Jumps,
    node: &'a Node<CodeLeaf, CodeUnary, CodeBinary, CodeMany>,
) -> Result<(), NoMemory>
    requires below { IsBelow (length setting.body.now.nodes) node.now }
    requires jumps { AreJumpsOf (setting_of setting) variable node.now jumps }
    ensures { OnOk result (seen_all constraints.new.items ≡ seen_all constraints.old.items ++ constraints_at (setting_of setting.entry) variable first node.now) }
{
    match node {
        Node::Leaf(leaf) => add_leaf(constraints, setting, variable, jumps.in_loop, leaf),
        Node::Unary(form, part) => {
            add_unary(constraints, setting, variable, jumps.breaks, form, *part)
        }
        Node::Binary(form, left, right) => {
            add_binary(constraints, setting, variable, form, *left, *right)
        }
        Node::If(condition, left, right) => {
            let truth = has(*condition, PlainType::Bool);
            add(
                constraints,
                &[
                    truth,
                    Constraint::Same(*left, variable),
                    Constraint::Same(*right, variable),
                ],
            )
        }
        Node::Many(form, parts) => {
            add_many(
                constraints,
                setting,
                variable,
                first,
                form,
                parts.as_slice(),
            )
        }
    }
}

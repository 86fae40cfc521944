//! The constraints of spec expressions, node by node.

ghost use Rattle.std.specs.Prelude.{◌≡◌, ◌++◌, ◌<◌, IfOk, OnOk, Some, length, slice_get};
ghost use Rattle.typing_rules.specs.SpecConstraints.{SpecNode as TheNode, spec_constraints_at, spec_many_constraints};
ghost use Rattle.type_constraints.specs.Seen.{seen_all};
ghost use Rattle.type_constraints.specs.SpecSettings.{setting_of};

use crate::constraint::{Constraint, PlainType, add, has};
use crate::spec::call::add_call;
use crate::spec::inner::{add_binary, add_unary};
use crate::spec::leaf::add_leaf;
use crate::spec::quantified::add_quantified;
use crate::spec::setting::{SpecNode, SpecSetting};
use crate::spec::structs::add_pack;
use base::memory::NoMemory;
use program::arena::Node;
use program::spec::SpecMany;
use std::alloc::Global;
use typing_rules::sort::Sort;

fn add_many<'a>(
    constraints: &mut Vec<Constraint<'a>>,
    setting: SpecSetting<'a>,
    variable: usize,
    first: usize,
    form: &'a SpecMany,
    parts: &[usize],
) -> Result<(), NoMemory>
    ensures { OnOk result (seen_all constraints.new.items ≡ seen_all constraints.old.items ++ spec_many_constraints (setting_of setting.entry) variable first form.now parts.now) }
{
    match form {
        SpecMany::Call(call) => add_call(constraints, setting, variable, first, call.get(), parts),
        SpecMany::Pack(named) => add_pack(
            constraints,
            setting,
            variable,
            first,
            named.get(),
            parts,
        ),
        SpecMany::Quantified { binds, .. } => {
            add_quantified(constraints, variable, binds.as_slice(), parts)
        }
    }
}

fn add_node<'a>(
    constraints: &mut Vec<Constraint<'a>>,
    setting: SpecSetting<'a>,
    variable: usize,
    first: usize,
    node: &'a SpecNode,
) -> Result<(), NoMemory>
    ensures { OnOk result (seen_all constraints.new.items ≡ seen_all constraints.old.items ++ spec_constraints_at (setting_of setting.entry) variable first node.now) }
{
    match node {
        Node::Leaf(leaf) => add_leaf(constraints, setting, variable, leaf),
        Node::Unary(form, part) => add_unary(constraints, variable, form, *part),
        Node::Binary(form, left, right) => add_binary(constraints, variable, form, *left, *right),
        Node::If(condition, left, right) => add(
            constraints,
            &[
                has(*condition, PlainType::Bool),
                Constraint::IsOf(Sort::Value, variable),
                Constraint::Same(*left, variable),
                Constraint::Same(*right, variable),
            ],
        ),
        Node::Many(form, parts) => {
            add_many(
                constraints,
                setting,
                variable,
                first,
                form,
                parts.as_slice(),
            )
        }
    }
}

/// Returns the constraints of the node with the number `index`, whose type arguments are the type variables from
/// `first` on.
pub fn node_constraints<'a>(
    alloc: Global,
    setting: SpecSetting<'a>,
    index: usize,
    first: usize,
) -> Result<Vec<Constraint<'a>>, NoMemory>
    requires { index < length setting.body.now.nodes }
    ensures { IfOk result (λ constraints. (node : TheNode) → slice_get setting.entry.body.now.nodes index ≡ Some node → seen_all constraints.items ≡ spec_constraints_at (setting_of setting.entry) index first node) }
{
    let mut constraints = Vec::new(alloc);
    add_node(
        &mut constraints,
        setting,
        index,
        first,
        setting.body.node(index),
    )?;
    Ok(constraints)
}

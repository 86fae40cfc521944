//! The constraints of functions and constants beside those of their nodes.

ghost use Rattle.std.specs.Prelude.{◌≡◌, ◌++◌, ◌∷◌, [], ◌<◌, length, IfOk, OnOk, Some, slice_get, if◌then◌else◌};
ghost use Rattle.typing_rules.specs.CodeConstraints.{constraints_at, has};
ghost use Rattle.typing_rules.specs.CodeSystems.{is_constant_node, is_constant_type, last_by, parameter_constraints, signature_constraints};
ghost use Rattle.typing_rules.specs.Constraint as D;
ghost use Rattle.typing_rules.specs.ProperTypes.{is_proper_single};
ghost use Rattle.typing_rules.specs.Settings.{variable_of_local};
ghost use Rattle.program.specs.CodeNodes.{CodeNode};
ghost use Rattle.type_constraints.specs.Bodies.{AreTablesOf};
ghost use Rattle.type_constraints.specs.Seen.{seen, seen_all};
ghost use Rattle.type_constraints.specs.CodeSettings.{setting_of};

use crate::code::body::{LoopTables, node_constraints};
use crate::code::setting::{CodeSetting, variable_of_local};
use crate::code::written::{is_proper, is_proper_single};
use crate::constraint::{Constraint, TypeForm, add, add_unless};
use base::memory::NoMemory;
use base::types::{TypeNode, TypeTerm};
use program::arena::Node;
use program::code::{Body, CodeBinary, CodeLeaf, CodeMany, CodeUnary};
use program::declaration::{Function, TypedName};
use std::alloc::Global;

/// Adds the constraints of a parameter, which is the local with this number.
fn add_parameter<'a>(
    constraints: &mut Vec<Constraint<'a>>,
    setting: CodeSetting<'a>,
    local: usize,
    parameter: &'a TypedName,
) -> Result<(), NoMemory>
    ensures { OnOk result (seen_all constraints.new.items ≡ seen_all constraints.old.items ++ (if is_proper_single setting.entry.program.now.structs parameter.now.annotation then has (variable_of_local (setting_of setting.entry) local) parameter.now.annotation else D.Barred) ∷ []) }
{
    let variable = variable_of_local(setting, local)?;
    let of = &parameter.annotation;
    if is_proper_single(&setting.program.structs, of) {
        add(
            constraints,
            &[Constraint::Has(variable, TypeForm::Written(of))],
        )
    } else {
        add(constraints, &[Constraint::Barred])
    }
}

/// Adds the constraints of the parameters, which are the first locals.
fn add_parameters<'a>(
    constraints: &mut Vec<Constraint<'a>>,
    setting: CodeSetting<'a>,
    parameters: &'a [TypedName],
) -> Result<(), NoMemory>
    ensures { OnOk result (seen_all constraints.new.items ≡ seen_all constraints.old.items ++ parameter_constraints (setting_of setting.entry) 0 parameters.now) }
{
    for (local, parameter) in parameters.iter().enumerate() {
        add_parameter(constraints, setting, local, parameter)?;
    }
    Ok(())
}

/// Returns the constraints of a function's signature, which come before those of its nodes: its parameters have their
/// types, and each type of the signature may be written.
pub fn signature_constraints<'a>(
    alloc: Global,
    setting: CodeSetting<'a>,
    function: &'a Function,
) -> Result<Vec<Constraint<'a>>, NoMemory>
    ensures { IfOk result (λ constraints. seen_all constraints.items ≡ signature_constraints (setting_of setting.entry) function.now) }
{
    let mut constraints = Vec::new(alloc);
    add_parameters(&mut constraints, setting, function.parameters.as_slice())?;
    add_unless(
        &mut constraints,
        is_proper(&setting.program.structs, &function.result),
    )?;
    Ok(constraints)
}

/// The constraint on a function's body as a whole.
pub fn returned<'a>(body: &Body, of: &'a TypeTerm) -> Constraint<'a>
    ensures { seen result ≡ last_by (λ n. D.Returns n (D.Written of.now)) body.now.nodes 0 }
{
    let count = body.len();
    if count == 0 {
        Constraint::Barred
    } else {
        Constraint::Returns(count - 1, TypeForm::Written(of))
    }
}

/// The constraint on a constant's value as a whole.
pub fn valued<'a>(body: &Body, of: &'a TypeTerm) -> Constraint<'a>
    ensures { seen result ≡ last_by (λ n. has n of.now) body.now.nodes 0 }
{
    let count = body.len();
    if count == 0 {
        Constraint::Barred
    } else {
        Constraint::Has(count - 1, TypeForm::Written(of))
    }
}

/// Decides whether a constant may have this type.
pub fn is_constant_type(term: &TypeTerm) -> bool
    ensures { result ≡ is_constant_type term.now }
{
    match &term.node {
        TypeNode::Bool | TypeNode::Int(_) | TypeNode::Address => true,
        _ => false,
    }
}

/// Decides whether the node may occur in a constant's value: a literal, an operator or a cast.
fn is_constant_node(node: &Node<CodeLeaf, CodeUnary, CodeBinary, CodeMany>) -> bool
    ensures { result ≡ is_constant_node node.now }
{
    match node {
        Node::Leaf(CodeLeaf::Number(_)) => true,
        Node::Leaf(CodeLeaf::Truth(_)) => true,
        Node::Leaf(CodeLeaf::Address(_)) => true,
        Node::Unary(CodeUnary::Not, _) => true,
        Node::Unary(CodeUnary::Cast(_), _) => true,
        Node::Binary(CodeBinary::Operator(_), _, _) => true,
        _ => false,
    }
}

/// Returns the constraints of the node with the number `index` of a constant's value, whose type arguments are the type
/// variables from `first` on.
pub fn value_constraints<'a>(
    alloc: Global,
    setting: CodeSetting<'a>,
    tables: &LoopTables,
    index: usize,
    first: usize,
) -> Result<Vec<Constraint<'a>>, NoMemory>
    requires within { index < length setting.body.now.nodes }
    requires tables { AreTablesOf setting.body.now.nodes tables.now }
    ensures { IfOk result (λ constraints. (node : CodeNode) → slice_get setting.entry.body.now.nodes index ≡ Some node → seen_all constraints.items ≡ (if is_constant_node node then constraints_at (setting_of setting.entry) index first node else D.Barred ∷ [])) }
{
    if is_constant_node(setting.body.node(index)) {
        return node_constraints(alloc, setting, tables, index, first);
    }
    let mut constraints = Vec::new(alloc);
    add(&mut constraints, &[Constraint::Barred])?;
    Ok(constraints)
}

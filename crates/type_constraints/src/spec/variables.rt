//! The type variables of a spec expression: its nodes, then the variables of its quantifiers, then its type arguments.

ghost use Rattle.std.specs.Prelude.{◌≡◌, ◌+◌, IfOk, length, slice_index_or};
ghost use Rattle.std.specs.Map.{lookup};
ghost use Rattle.std.specs.Option.{option_map};
ghost use Rattle.program.specs.Same.{same_function};
ghost use Rattle.typing_rules.specs.Settings.{arity_of};
ghost use Rattle.typing_rules.specs.SpecConstraints.{binds_in, spec_callee_signature, spec_form_arity, spec_node_arity, spec_variable_count, spec_signature, variable_of_name};
ghost use Rattle.type_constraints.specs.SpecKnown.{AreVariables};
ghost use Rattle.type_constraints.specs.SpecSettings.{setting_of, variables_of};

use crate::builtin::of_spec;
use crate::code::signature::struct_arity;
use crate::numbers::sum;
use crate::spec::setting::{SpecNode, SpecSetting};
use base::memory::NoMemory;
use base::types::FunctionId;
use program::arena::Node;
use program::declaration::SpecFunction;
use program::program::Program;
use program::spec::{Bind, SpecBody, SpecCallee, SpecMany};
use program::table::Table;
use std::alloc::Global;

fn function_arity(functions: &Table<FunctionId, SpecFunction>, id: &FunctionId) -> usize
    ensures { result ≡ arity_of (option_map spec_signature (lookup (same_function id.now) functions.now)) }
{
    match functions.get(id) {
        Some(found) => found.type_parameters.as_slice().len(),
        None => 0,
    }
}

/// The number of type parameters of a callee; 0 where it is not declared.
fn callee_arity(program: &Program, callee: &SpecCallee) -> usize
    ensures { result ≡ arity_of (spec_callee_signature program.now callee.now) }
{
    match callee {
        SpecCallee::Function(id) => function_arity(&program.spec_functions, id),
        SpecCallee::Builtin(builtin) => of_spec(*builtin).arity,
    }
}

fn form_arity(program: &Program, form: &SpecMany) -> usize
    ensures { result ≡ spec_form_arity program.now form.now }
{
    match form {
        SpecMany::Call(call) => callee_arity(program, &call.get().callee),
        SpecMany::Pack(named) => struct_arity(&program.structs, &named.get().owner),
        _ => 0,
    }
}

/// The number of type arguments of a node, whether they are written or not.
pub fn node_arity(program: &Program, node: &SpecNode) -> usize
    ensures { result ≡ spec_node_arity program.now node.now }
{
    match node {
        Node::Many(form, _) => form_arity(program, form),
        _ => 0,
    }
}

/// The variables that a node binds, if it is a quantifier.
pub fn binds_in<'a>(node: &'a SpecNode) -> &'a [Bind]
    ensures { result.now ≡ binds_in node.now }
{
    match node {
        Node::Many(SpecMany::Quantified { binds, .. }, _) => binds.as_slice(),
        _ => &[],
    }
}

/// The number of variables that the quantifiers of a body bind.
#[tactic(auto, using(crate::proofs::Sums::variables_last))]
pub fn variable_count(body: &SpecBody) -> Result<usize, NoMemory>
    ensures { IfOk result (λ count. count ≡ variables_of body.now.nodes) }
{
    let mut count = 0;
    for index in 0..body.len() {
        let binds = binds_in(body.node(index));
        count = sum(count, binds.len())?;
    }
    Ok(count)
}

/// The type variable of a variable of a quantifier. `NoMemory` where a number exceeds `usize`, as only with more nodes
/// than any memory holds.
pub fn variable_of_name<'a>(setting: SpecSetting<'a>, variable: usize) -> Result<usize, NoMemory>
    ensures { IfOk result (λ number. number ≡ variable_of_name (setting_of setting.entry) variable) }
{
    sum(setting.body.len(), variable)
}

/// Returns the type variables of the first type arguments of the nodes, by their numbers, and last the number of type
/// variables.
pub fn argument_variables<'a>(
    alloc: Global,
    setting: SpecSetting<'a>,
) -> Result<Vec<usize>, NoMemory>
    ensures len { IfOk result (λ variables. length variables.items ≡ length setting.entry.body.now.nodes + 1) }
    ensures variables { IfOk result (λ variables. AreVariables (setting_of setting.entry) variables.items) }
    ensures count { IfOk result (λ variables. slice_index_or variables.items (length setting.entry.body.now.nodes) 0 ≡ spec_variable_count (setting_of setting.entry)) }
{
    let mut variables = Vec::new(alloc);
    let mut next = sum(setting.body.len(), setting.variables)?;
    for index in 0..setting.body.len() {
        variables.push(next)?;
        next = sum(next, node_arity(setting.program, setting.body.node(index)))?;
    }
    variables.push(next)?;
    Ok(variables)
}

//! Functions that are sums.

ghost use Rattle.std.specs.Prelude.{◌≡◌, None, Some, MatchResult};
ghost use Rattle.sum_read.specs.FormFault.{IfNotBuilt};
ghost use Rattle.sum_read.specs.Functions.{function_of, inputs_of, is_plain, is_private, is_result, is_u64, parameter_name, parameter_names, value_of};

use crate::fault::FormFault;
use crate::sum::read_sum;
use base::name::Name;
use std::alloc::Global;
use sum_tree::function::SumFunction;
use sum_tree::sum::Sum;
use syntax_tree::expression::Block;
use syntax_tree::member::{Function as FunctionTree, TypedName, TypedNames, Visibility};
use syntax_tree::path::Path;
use syntax_tree::types::{SourceType, SourceTypeNode};

/// Decides whether a type is `u64`.
fn is_u64(annotation: &SourceType) -> bool
    ensures { result ≡ is_u64 annotation.now }
{
    match &annotation.node {
        SourceTypeNode::Named { path, arguments } => match path {
            Path::Name(name) => arguments.is_none() && name.text.as_slice() == b"u64".as_slice(),
            Path::Member(_, _) => false,
            Path::Full(_, _) => false,
        },
        SourceTypeNode::Shared { .. } => false,
        SourceTypeNode::Mutable { .. } => false,
        SourceTypeNode::Tuple { .. } => false,
    }
}

/// The name of a parameter, which must be a u64.
fn parameter_name(alloc: Global, parameter: &TypedName) -> Result<Name, FormFault>
    ensures { MatchResult result (λ name. parameter_name parameter.now ≡ Some name) (λ fault. IfNotBuilt fault (parameter_name parameter.now ≡ None)) }
{
    if is_u64(&parameter.annotation) {
        Ok(parameter.name.text.try_clone(alloc)?)
    } else {
        Err(FormFault::NotBuilt)
    }
}

/// The names of parameters, each of which must be a u64.
fn parameter_names(alloc: Global, parameters: &[TypedName]) -> Result<Vec<Name>, FormFault>
    ensures { MatchResult result (λ names. parameter_names parameters.now ≡ Some names.items) (λ fault. IfNotBuilt fault (parameter_names parameters.now ≡ None)) }
{
    let mut names = Vec::new(alloc);
    for parameter in parameters {
        names.push(parameter_name(alloc, parameter)?)?;
    }
    Ok(names)
}

/// The names of the inputs of a function, which must have no trailing comma.
fn inputs_of(alloc: Global, inputs: &TypedNames) -> Result<Vec<Name>, FormFault>
    ensures { MatchResult result (λ names. inputs_of inputs.now ≡ Some names.items) (λ fault. IfNotBuilt fault (inputs_of inputs.now ≡ None)) }
{
    if inputs.last_comma {
        Err(FormFault::NotBuilt)
    } else {
        parameter_names(alloc, &inputs.items)
    }
}

/// Reads a body as a sum: it must consist of a value alone.
fn value_of(alloc: Global, body: &Block) -> Result<Box<Sum>, FormFault>
    ensures { MatchResult result (λ sum. value_of body.now ≡ Some sum.value) (λ fault. IfNotBuilt fault (value_of body.now ≡ None)) }
{
    if body.spec.is_some() {
        return Err(FormFault::NotBuilt);
    }
    match body.items.split_first() {
        Some(_) => Err(FormFault::NotBuilt),
        None => match &body.value {
            Some(value) => read_sum(alloc, value),
            None => Err(FormFault::NotBuilt),
        },
    }
}

/// Decides whether a function is private to its module.
fn is_private(visibility: Visibility) -> bool
    ensures { result ≡ is_private visibility }
{
    match visibility {
        Visibility::Module => true,
        Visibility::Public(_) => false,
        Visibility::Friends(_) => false,
    }
}

/// Decides whether a function returns a u64.
fn is_result(annotation: &Option<SourceType>) -> bool
    ensures { result ≡ is_result annotation.now }
{
    match annotation {
        None => false,
        Some(annotation) => is_u64(annotation),
    }
}

/// Decides whether a function is private to its module, has no `entry`, no type parameters and no `acquires`, and
/// returns a u64.
fn is_plain(function: &FunctionTree) -> bool
    ensures { result ≡ is_plain function.now }
{
    is_private(function.visibility)
        && function.entry.is_none()
        && function.parameters.is_none()
        && function.acquires.is_none()
        && is_result(&function.result)
}

/// Reads a function as a function over sums.
///
/// # Errors
///
/// `NotBuilt` if and only if it is not one.
pub fn read_function(alloc: Global, function: &FunctionTree) -> Result<SumFunction, FormFault>
    ensures { MatchResult result (λ read. function_of function.now ≡ Some read) (λ fault. IfNotBuilt fault (function_of function.now ≡ None)) }
{
    if !is_plain(function) {
        return Err(FormFault::NotBuilt);
    }
    let parameters = inputs_of(alloc, &function.inputs)?;
    let body = value_of(alloc, &function.body)?;
    Ok(SumFunction {
        name: function.name.text.try_clone(alloc)?,
        parameters,
        body: Box::into_inner(body),
        start: function.span.start,
    })
}

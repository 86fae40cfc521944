//! Resolution of spec functions.

ghost use Rattle.std.specs.Prelude.{◌<◌, ◌^◌, length, IfOk, IfErr};
ghost use Rattle.scopes.specs.Meanings.{IfUnknown};
ghost use Rattle.resolution.specs.Parameters.{type_names_of};
ghost use Rattle.resolution.specs.SpecDeclarations.{HasUnknownInSpecFunction, IsSpecFunctionOf};

use crate::clauses::around::around_spec_function;
use crate::declarations::parameters::{type_names_of, type_parameters_of, typed_names};
use body_names::spec::context::Context;
use body_names::spec::expression::{ResolvedSpec, resolve_expression};
use program::declaration::SpecFunction;
use scopes::environment::Environment;
use scopes::fault::NameFault;
use scopes::types::{TypeContext, type_named};
use std::alloc::Global;
use syntax_tree::clause::SpecFunction as SpecFunctionTree;

/// Resolves a spec function. `Unknown` exactly if a name in a type or a use in its body has no meaning; `NoMemory` if
/// memory runs out first.
pub fn resolve_spec_function(
    alloc: Global,
    environment: &Environment,
    tree: &SpecFunctionTree,
) -> Result<SpecFunction, NameFault>
    requires few { length (type_names_of tree.now.parameters) < 2 ^ 32 }
    ensures resolved { IfOk result (IsSpecFunctionOf environment.now tree.now) }
    ensures unknown { IfErr result (λ fault. IfUnknown fault (HasUnknownInSpecFunction environment.now tree.now)) }
{
    let names = type_names_of(alloc, &tree.parameters)?;
    let types = TypeContext {
        environment,
        parameters: names.as_slice(),
        is_spec: true,
    };
    let parameters = typed_names(alloc, &types, &tree.inputs.items)?;
    let result_type = type_named(alloc, &types, &tree.result)?;
    let outer = around_spec_function(alloc, &tree.inputs.items)?;
    let context = Context {
        alloc,
        types,
        outer: &outer,
    };
    let ResolvedSpec {
        body,
        index: _,
        variables,
    } = resolve_expression(&context, &tree.body)?;
    drop(variables);
    Ok(SpecFunction {
        span: tree.span,
        type_parameters: type_parameters_of(alloc, &tree.parameters)?,
        parameters,
        result: result_type,
        body,
    })
}

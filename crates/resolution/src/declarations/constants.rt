//! Resolution of constants.

ghost use Rattle.std.specs.Prelude.{IfOk, IfErr};
ghost use Rattle.scopes.specs.Meanings.{IfUnknown};
ghost use Rattle.resolution.specs.Declarations.{HasUnknownInConstant, IsConstantOf};

use body_names::code::body::{ResolvedBody, resolve_constant as resolve_value};
use body_names::code::context::Context;
use program::declaration::Constant;
use scopes::environment::Environment;
use scopes::fault::NameFault;
use scopes::types::{TypeContext, type_named};
use std::alloc::Global;
use syntax_tree::member::Constant as ConstantTree;

/// Resolves a constant. `Unknown` exactly if a name in its type or a use in its value has no meaning; `NoMemory` if
/// memory runs out first.
pub fn resolve_constant(
    alloc: Global,
    environment: &Environment,
    tree: &ConstantTree,
) -> Result<Constant, NameFault>
    ensures resolved { IfOk result (IsConstantOf environment.now tree.now) }
    ensures unknown { IfErr result (λ fault. IfUnknown fault (HasUnknownInConstant environment.now tree.now)) }
{
    let types = TypeContext {
        environment,
        parameters: &[],
        is_spec: false,
    };
    let annotation = type_named(alloc, &types, &tree.annotation)?;
    let context = Context { alloc, types };
    let ResolvedBody { body, locals } = resolve_value(&context, &tree.value)?;
    drop(locals);
    Ok(Constant {
        span: tree.span,
        annotation,
        value: body,
    })
}

//! Resolution of structs.

ghost use Rattle.std.specs.Prelude.{◌≡◌, ◌<◌, ◌^◌, length, IfOk, IfErr};
ghost use Rattle.scopes.specs.Meanings.{IfUnknown};
ghost use Rattle.resolution.specs.Parameters.{type_names_of};
ghost use Rattle.resolution.specs.Declarations.{HasUnknownInStruct, IsStructOf};

use crate::declarations::parameters::{
    struct_abilities, type_names_of, type_parameters_of, typed_names,
};
use program::declaration::Struct;
use program::sequence::Sequence;
use scopes::environment::Environment;
use scopes::fault::NameFault;
use scopes::types::TypeContext;
use std::alloc::Global;
use syntax_tree::member::Struct as StructTree;

/// Resolves a struct, without the clauses of its specs. `Unknown` exactly if a name in the type of some field has no
/// meaning; `NoMemory` if memory runs out first.
pub fn resolve_struct(
    alloc: Global,
    environment: &Environment,
    tree: &StructTree,
) -> Result<Struct, NameFault>
    requires few { length (type_names_of tree.now.parameters) < 2 ^ 32 }
    ensures resolved { IfOk result (IsStructOf environment.now tree.now) }
    ensures unknown { IfErr result (λ fault. IfUnknown fault (HasUnknownInStruct environment.now tree.now)) }
{
    let names = type_names_of(alloc, &tree.parameters)?;
    let context = TypeContext {
        environment,
        parameters: names.as_slice(),
        is_spec: false,
    };
    let fields = typed_names(alloc, &context, &tree.fields.items)?;
    Ok(Struct {
        span: tree.span,
        type_parameters: type_parameters_of(alloc, &tree.parameters)?,
        abilities: struct_abilities(&tree.abilities),
        fields,
        clauses: Sequence::new(alloc),
    })
}

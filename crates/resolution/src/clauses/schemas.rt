//! Resolution of schemas.

ghost use Rattle.std.specs.Prelude.{◌≡◌, ◌<◌, ◌^◌, ◌++◌, length, None, Some, IfOk, IfErr, MatchResult, OnOk};
ghost use Rattle.scopes.specs.Meanings.{IfUnknown, IsMeaning};
ghost use Rattle.scopes.specs.Declares.{listed};
ghost use Rattle.resolution.specs.Parameters.{type_names_of, typed_meaning, typed_names};
ghost use Rattle.resolution.specs.SpecDeclarations.{HasUnknownInSchema, IsSchemaOf, schema_variables, variables_in, variables_of_clause};

use crate::clauses::around::around_schema;
use crate::clauses::context::ClauseContext;
use crate::clauses::{Target, resolve_block};
use crate::declarations::parameters::{type_names_of, type_parameters_of};
use base::memory::NoMemory;
use body_names::spec::name_list::NameList;
use program::declaration::{Schema, TypedName};
use program::program::SchemaId;
use program::sequence::Sequence;
use program::table::Table;
use scopes::environment::Environment;
use scopes::fault::NameFault;
use scopes::types::{TypeContext, type_named};
use std::alloc::Global;
use syntax_tree::clause::{Clause as ClauseTree, Schema as SchemaTree};
use syntax_tree::member::TypedName as TypedNameTree;

/// Returns the names of the variables that a schema declares anywhere in its block.
pub fn schema_variables(alloc: Global, trees: &[ClauseTree]) -> Result<NameList, NoMemory>
    ensures { IfOk result (λ names. names ≡ schema_variables trees.now) }
{
    let mut names = NameList::new(alloc);
    for tree in trees {
        if let ClauseTree::Variable(variable) = tree {
            names.push(alloc, variable.name.text.try_clone(alloc)?)?;
        }
    }
    Ok(names)
}

/// Resolves a variable with its type.
fn variable_named(
    alloc: Global,
    context: &TypeContext<'_>,
    variable: &TypedNameTree,
) -> Result<TypedName, NameFault>
    requires { length context.now.parameters.now < 2 ^ 32 }
    ensures { IsMeaning result (typed_meaning (record { environment = context.now.environment.now; parameters = context.now.parameters.now; is_spec = context.now.is_spec }) variable.now) }
{
    let annotation = type_named(alloc, context, &variable.annotation)?;
    Ok(TypedName {
        name: variable.name.text.try_clone(alloc)?,
        annotation,
    })
}

/// Resolves the variable that a clause declares, if it declares one.
fn variable_in(
    alloc: Global,
    context: &TypeContext<'_>,
    tree: &ClauseTree,
) -> Result<Option<TypedName>, NameFault>
    requires { length context.now.parameters.now < 2 ^ 32 }
    ensures { MatchResult result (λ found. typed_names (record { environment = context.now.environment.now; parameters = context.now.parameters.now; is_spec = context.now.is_spec }) (variables_of_clause tree.now) ≡ Some (listed found)) (λ fault. IfUnknown fault (typed_names (record { environment = context.now.environment.now; parameters = context.now.parameters.now; is_spec = context.now.is_spec }) (variables_of_clause tree.now) ≡ None)) }
{
    match tree {
        ClauseTree::Variable(variable) => Ok(Some(variable_named(alloc, context, variable)?)),
        _ => Ok(None),
    }
}

/// Appends a variable, if there is one.
fn push_found(into: &mut Sequence<TypedName>, found: Option<TypedName>) -> Result<(), NoMemory>
    ensures { OnOk result (into.new ≡ into.old ++ listed found) }
{
    match found {
        None => Ok(()),
        Some(variable) => into.push(variable),
    }
}

/// Resolves the variables that a schema declares, with their types.
fn variables_named(
    alloc: Global,
    context: &TypeContext<'_>,
    trees: &[ClauseTree],
) -> Result<Sequence<TypedName>, NameFault>
    requires { length context.now.parameters.now < 2 ^ 32 }
    ensures { IsMeaning result (typed_names (record { environment = context.now.environment.now; parameters = context.now.parameters.now; is_spec = context.now.is_spec }) (variables_in trees.now)) }
{
    let mut variables = Sequence::new(alloc);
    for tree in trees {
        let found = variable_in(alloc, context, tree)?;
        push_found(&mut variables, found)?;
    }
    Ok(variables)
}

/// Resolves a schema, given the variables of all schemas. `Unknown` exactly if a name in the type of a variable or a
/// use in a clause has no meaning; `NoMemory` if memory runs out first.
pub fn resolve_schema<'a>(
    alloc: Global,
    environment: &'a Environment,
    schemas: &'a Table<SchemaId, NameList>,
    tree: &SchemaTree,
) -> Result<Schema, NameFault>
    requires few { length (type_names_of tree.now.parameters) < 2 ^ 32 }
    ensures resolved { IfOk result (IsSchemaOf environment.now schemas.now tree.now) }
    ensures unknown { IfErr result (λ fault. IfUnknown fault (HasUnknownInSchema environment.now schemas.now tree.now)) }
{
    let parameters = type_names_of(alloc, &tree.parameters)?;
    let types = TypeContext {
        environment,
        parameters: parameters.as_slice(),
        is_spec: true,
    };
    let trees = tree.clauses.items.as_slice();
    let variables = variables_named(alloc, &types, trees)?;
    let names = schema_variables(alloc, trees)?;
    let context = ClauseContext {
        alloc,
        types,
        schemas,
    };
    let mut target = Target::new(alloc, around_schema(alloc, names.as_slice())?);
    resolve_block(&context, tree.span, trees, &mut target)?;
    let Target { outer, clauses } = target;
    drop(outer);
    Ok(Schema {
        span: tree.span,
        type_parameters: type_parameters_of(alloc, &tree.parameters)?,
        variables,
        clauses,
    })
}

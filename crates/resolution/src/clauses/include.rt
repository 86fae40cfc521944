//! Resolution of included schemas.

ghost use Rattle.std.specs.Prelude.{◌≡◌, IfOk, IfErr, Some};
ghost use Rattle.program.specs.Listed.{indices};
ghost use Rattle.scopes.specs.Meanings.{IfUnknown};
ghost use Rattle.body_names.specs.SpecSetting.{setting};
ghost use Rattle.resolution.specs.ClauseForms.{IsMadeOf, IsUnknown};
ghost use Rattle.resolution.specs.Includes.{GivesNothing, IsGiven, include_form, include_spans, include_trees};
ghost use Rattle.resolution.specs.Setting.{scope_of};

use crate::clauses::bindings::{are_variables, bindings_of, complete, given_names, indices_of};
use crate::clauses::context::ClauseContext;
use base::span::Span;
use body_names::spec::context::Context;
use body_names::spec::expression::{ResolvedSpecs, resolve_bindings};
use body_names::spec::name_list::NameList;
use body_names::spec::outer::Outer;
use program::clause::{Clause, ClauseForm};
use program::sequence::Sequence;
use program::spec::SpecBody;
use scopes::fault::NameFault;
use scopes::types::type_arguments;
use syntax_tree::clause::Include as IncludeTree;
use syntax_tree::spec_expression::SpecField;

/// The values of the variables of a schema.
#[derive(Drop)]
pub struct Given {
    /// The index of the value of each variable, in order.
    pub indices: Sequence<usize>,
    pub body: SpecBody,
}

/// Resolves the values of these variables at this span, given these written bindings.
fn give(
    context: &Context<'_>,
    span: Span,
    variables: &NameList,
    bindings: &[SpecField],
) -> Result<Given, NameFault>
    ensures given { IfOk result (λ given. IsGiven (setting context.now) span variables.now bindings.now given) }
    ensures unknown { IfErr result (λ fault. IfUnknown fault (GivesNothing (setting context.now) span variables.now bindings.now)) }
{
    let mut names = given_names(context.alloc, bindings)?;
    if !are_variables(variables, names.as_slice()) {
        return Err(NameFault::Unknown);
    }
    let implied = complete(context.alloc, span, variables.as_slice(), &mut names)?;
    let ResolvedSpecs {
        body,
        indices,
        variables: quantified,
    } = resolve_bindings(context, bindings, implied.as_slice())?;
    drop(quantified);
    let indices = indices_of(
        context.alloc,
        &names,
        indices.as_slice(),
        variables.as_slice(),
    )?;
    Ok(Given { indices, body })
}

/// Resolves an include of a schema.
pub fn resolve_include(
    clause_context: &ClauseContext<'_>,
    outer: &Outer,
    block: Span,
    tree: &IncludeTree,
) -> Result<Clause, NameFault>
    ensures resolved { IfOk result (IsMadeOf (include_trees (scope_of clause_context.now) outer.now tree.now) (include_spans (scope_of clause_context.now) tree.now) (include_form (scope_of clause_context.now) tree.now (indices 0 (include_trees (scope_of clause_context.now) outer.now tree.now))) block tree.now.span) }
    ensures unknown { IfErr result (λ fault. IfUnknown fault (IsUnknown (include_trees (scope_of clause_context.now) outer.now tree.now) (include_form (scope_of clause_context.now) tree.now (indices 0 (include_trees (scope_of clause_context.now) outer.now tree.now))))) }
{
    let context = Context {
        alloc: clause_context.alloc,
        types: clause_context.types,
        outer,
    };
    let schema = clause_context
        .types
        .environment
        .schema_named(clause_context.alloc, &tree.schema)?;
    let Some(variables) = clause_context.schemas.get(&schema) else {
        return Err(NameFault::Unknown);
    };
    let types = type_arguments(clause_context.alloc, &clause_context.types, &tree.arguments)?;
    let Given { indices, body } = give(
        &context,
        tree.span,
        variables,
        bindings_of(&tree.bindings),
    )?;
    Ok(Clause {
        block,
        span: tree.span,
        form: ClauseForm::Include {
            schema,
            types,
            given: indices,
        },
        body,
    })
}

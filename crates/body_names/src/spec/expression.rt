//! Spec expressions with their names resolved: one alone, or several in one list of nodes.

ghost use Rattle.std.specs.Prelude.{◌≡◌, [], ◌+◌, ◌++◌, length, IfErr, IfOk, OnOk};
ghost use Rattle.syntax_tree.specs.SpecExpressionData.{spec_expressions_of, spec_fields_of};
ghost use Rattle.program.specs.Listed.{AreSound, IsSound};
ghost use Rattle.scopes.specs.Meanings.{IfUnknown};
ghost use Rattle.body_names.specs.SpecAdded.{AddedAll};
ghost use Rattle.body_names.specs.SpecTrees.{field_trees};
ghost use Rattle.body_names.specs.Joined.{joined};
ghost use Rattle.body_names.specs.SpecResolved.{AreResolved, IsResolved, binding_trees, expression_tree, expression_trees};
ghost use Rattle.body_names.specs.SpecSetting.{setting};
ghost use Rattle.body_names.specs.SpecNames.{variables_of, variables_of_all, variables_of_fields};
ghost use Rattle.body_names.specs.SpecSpans.{spans_of, spans_of_all, spans_of_fields};

use crate::spec::building::Building;
use crate::spec::context::Context;
use crate::spec::{resolve_fields, resolve_spec, resolve_values};
use base::name::Name;
use program::arena::Arena;
use program::sequence::Sequence;
use program::spec::SpecBody;
use scopes::fault::NameFault;
use scopes::scope::Scope;
use syntax_tree::spec_expression::{SpecExpression, SpecField};

/// A spec expression with its names resolved.
#[derive(Drop)]
pub struct ResolvedSpec {
    /// Its nodes. The last one is the root.
    pub body: SpecBody,
    /// The index of the root.
    pub index: usize,
    /// The names of its quantifier variables, by number, in source order.
    pub variables: Sequence<Name>,
}

/// Spec expressions with their names resolved.
#[derive(Drop)]
pub struct ResolvedSpecs {
    /// Their nodes, one expression after another.
    pub body: SpecBody,
    /// The index of the root of each expression.
    pub indices: Sequence<usize>,
    /// The names of their quantifier variables, by number, in source order.
    pub variables: Sequence<Name>,
}

/// Returns the state before the first spec expression.
fn begin(context: &Context<'_>) -> Building
    ensures nodes { result.body.nodes ≡ [] }
    ensures spans { result.body.spans ≡ [] }
    ensures scope { result.scope ≡ [] }
    ensures variables { result.variables ≡ [] }
{
    Building {
        body: Arena::new(context.alloc),
        scope: Scope::new(context.alloc),
        variables: Sequence::new(context.alloc),
    }
}

/// Resolves a spec expression. `Unknown` exactly if some use in it has no meaning; `NoMemory` if memory runs out first.
pub fn resolve_expression(
    context: &Context<'_>,
    expression: &SpecExpression,
) -> Result<ResolvedSpec, NameFault>
    ensures resolved { IfOk result (λ resolved. IsResolved (expression_tree (setting context.now) expression.now) (spans_of expression.now) (variables_of expression.now) resolved) }
    ensures unknown { IfErr result (λ fault. IfUnknown fault (IsSound (expression_tree (setting context.now) expression.now) → ⊥)) }
{
    let mut building = begin(context);
    let index = resolve_spec(context, &mut building, expression)?;
    let Building {
        body,
        scope,
        variables,
    } = building;
    drop(scope);
    Ok(ResolvedSpec {
        body,
        index,
        variables,
    })
}

/// Resolves spec expressions into one list of nodes. The numbers of variables continue from one expression to the next.
/// `Unknown` exactly if some use in one of them has no meaning; `NoMemory` if memory runs out first.
pub fn resolve_expressions(
    context: &Context<'_>,
    expressions: &[SpecExpression],
) -> Result<ResolvedSpecs, NameFault>
    ensures resolved { IfOk result (λ resolved. AreResolved (expression_trees (setting context.now) (spec_expressions_of expressions.now)) (spans_of_all (spec_expressions_of expressions.now)) (variables_of_all (spec_expressions_of expressions.now)) resolved) }
    ensures unknown { IfErr result (λ fault. IfUnknown fault (AreSound (expression_trees (setting context.now) (spec_expressions_of expressions.now)) → ⊥)) }
{
    let mut building = begin(context);
    let mut indices = Sequence::new(context.alloc);
    resolve_values(context, &mut building, &mut indices, expressions)?;
    let Building {
        body,
        scope,
        variables,
    } = building;
    drop(scope);
    Ok(ResolvedSpecs {
        body,
        indices,
        variables,
    })
}

/// Resolves the values of bindings, and after them the implied values, into one list of nodes. `Unknown` exactly if
/// some use in one of them has no meaning; `NoMemory` if memory runs out first.
pub fn resolve_bindings(
    context: &Context<'_>,
    given: &[SpecField],
    implied: &[SpecField],
) -> Result<ResolvedSpecs, NameFault>
    ensures resolved { IfOk result (λ resolved. AreResolved (binding_trees (setting context.now) (spec_fields_of given.now) (spec_fields_of implied.now)) (spans_of_fields (spec_fields_of given.now) ++ spans_of_fields (spec_fields_of implied.now)) (variables_of_fields (spec_fields_of given.now) ++ variables_of_fields (spec_fields_of implied.now)) resolved) }
    ensures unknown { IfErr result (λ fault. IfUnknown fault (AreSound (binding_trees (setting context.now) (spec_fields_of given.now) (spec_fields_of implied.now)) → ⊥)) }
{
    let mut building = begin(context);
    let mut indices = Sequence::new(context.alloc);
    resolve_both(context, &mut building, &mut indices, given, implied)?;
    let Building {
        body,
        scope,
        variables,
    } = building;
    drop(scope);
    Ok(ResolvedSpecs {
        body,
        indices,
        variables,
    })
}

/// Resolves the values of some bindings, and after them those of others. Appends the indices of their nodes to `parts`.
fn resolve_both(
    context: &Context<'_>,
    into: &mut Building,
    parts: &mut Sequence<usize>,
    first: &[SpecField],
    others: &[SpecField],
) -> Result<(), NameFault>
    ensures added { OnOk result (AddedAll (joined (field_trees (setting context.now) into.old.scope (length into.old.variables) (spec_fields_of first.now)) (field_trees (setting context.now) into.old.scope (length into.old.variables + length (variables_of_fields (spec_fields_of first.now))) (spec_fields_of others.now))) (spans_of_fields (spec_fields_of first.now) ++ spans_of_fields (spec_fields_of others.now)) (variables_of_fields (spec_fields_of first.now) ++ variables_of_fields (spec_fields_of others.now)) into.old into.new parts.old parts.new) }
    ensures unknown { IfErr result (λ fault. IfUnknown fault (AreSound (joined (field_trees (setting context.now) into.old.scope (length into.old.variables) (spec_fields_of first.now)) (field_trees (setting context.now) into.old.scope (length into.old.variables + length (variables_of_fields (spec_fields_of first.now))) (spec_fields_of others.now))) → ⊥)) }
{
    resolve_fields(context, into, parts, first)?;
    resolve_fields(context, into, parts, others)?;
    Ok(())
}

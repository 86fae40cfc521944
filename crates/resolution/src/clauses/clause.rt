//! Resolution of single clauses.

ghost use Rattle.std.specs.Prelude.{◌≡◌, IfOk, IfErr, Some};
ghost use Rattle.syntax_tree.specs.SpecExpressionData.{spec_expressions_of};
ghost use Rattle.program.specs.Listed.{indices};
ghost use Rattle.scopes.specs.Meanings.{IfUnknown};
ghost use Rattle.body_names.specs.SpecResolved.{expression_tree, expression_trees};
ghost use Rattle.body_names.specs.SpecSetting.{setting};
ghost use Rattle.body_names.specs.SpecSpans.{spans_of, spans_of_all};
ghost use Rattle.resolution.specs.ClauseForms.{HasUnknown, IsClauseOf, IsMadeOf, IsUnknown, condition_form, invariant_kind, is_clause, let_form, only};
ghost use Rattle.resolution.specs.Setting.{scope_of};

use crate::clauses::context::ClauseContext;
use crate::clauses::include::resolve_include;
use base::span::Span;
use body_names::spec::context::Context;
use body_names::spec::expression::{
    ResolvedSpec, ResolvedSpecs, resolve_expression, resolve_expressions,
};
use body_names::spec::outer::Outer;
use program::clause::{Clause, ClauseForm, ConditionKind};
use scopes::fault::NameFault;
use syntax_tree::clause::Clause as ClauseTree;
use syntax_tree::spec_expression::SpecExpression;

/// Decides whether it is a clause of a program: neither a pragma nor a variable of a schema.
pub fn is_clause(tree: &ClauseTree) -> bool
    ensures { result ≡ is_clause tree.now }
{
    !matches!(tree, ClauseTree::Pragma { .. } | ClauseTree::Variable(_))
}

/// Resolves a condition.
fn condition(
    context: &Context<'_>,
    block: Span,
    span: Span,
    kind: ConditionKind,
    expression: &SpecExpression,
) -> Result<Clause, NameFault>
    ensures resolved { IfOk result (IsMadeOf (only (expression_tree (setting context.now) expression.now)) (spans_of expression.now) (condition_form kind (expression_tree (setting context.now) expression.now)) block span) }
    ensures unknown { IfErr result (λ fault. IfUnknown fault (IsUnknown (only (expression_tree (setting context.now) expression.now)) (condition_form kind (expression_tree (setting context.now) expression.now)))) }
{
    let ResolvedSpec {
        body,
        index: root,
        variables,
    } = resolve_expression(context, expression)?;
    drop(variables);
    Ok(Clause {
        block,
        span,
        form: ClauseForm::Condition(kind, root),
        body,
    })
}

/// Resolves a `let`.
fn bound(
    context: &Context<'_>,
    block: Span,
    span: Span,
    is_post: bool,
    value: &SpecExpression,
) -> Result<Clause, NameFault>
    ensures resolved { IfOk result (IsMadeOf (only (expression_tree (setting context.now) value.now)) (spans_of value.now) (let_form is_post (expression_tree (setting context.now) value.now)) block span) }
    ensures unknown { IfErr result (λ fault. IfUnknown fault (IsUnknown (only (expression_tree (setting context.now) value.now)) (let_form is_post (expression_tree (setting context.now) value.now)))) }
{
    let ResolvedSpec {
        body,
        index: root,
        variables,
    } = resolve_expression(context, value)?;
    drop(variables);
    Ok(Clause {
        block,
        span,
        form: ClauseForm::Let {
            is_post,
            value: root,
        },
        body,
    })
}

/// Resolves the storage locations that may change.
fn modified(
    context: &Context<'_>,
    block: Span,
    span: Span,
    targets: &[SpecExpression],
) -> Result<Clause, NameFault>
    ensures resolved { IfOk result (IsMadeOf (expression_trees (setting context.now) (spec_expressions_of targets.now)) (spans_of_all (spec_expressions_of targets.now)) (Some (ClauseForm.Modifies (indices 0 (expression_trees (setting context.now) (spec_expressions_of targets.now))))) block span) }
    ensures unknown { IfErr result (λ fault. IfUnknown fault (IsUnknown (expression_trees (setting context.now) (spec_expressions_of targets.now)) (Some (ClauseForm.Modifies (indices 0 (expression_trees (setting context.now) (spec_expressions_of targets.now))))))) }
{
    let ResolvedSpecs {
        body,
        indices,
        variables,
    } = resolve_expressions(context, targets)?;
    drop(variables);
    Ok(Clause {
        block,
        span,
        form: ClauseForm::Modifies(indices),
        body,
    })
}

fn invariant_kind(is_update: bool) -> ConditionKind
    ensures { result ≡ invariant_kind is_update }
{
    if is_update {
        ConditionKind::UpdateInvariant
    } else {
        ConditionKind::Invariant
    }
}

/// Resolves a clause of a spec block, given the span of the block's first token and the names around the clause.
/// `Unknown` exactly if some use in it has no meaning, or if it is a pragma or a variable of a schema, which are no
/// clauses of a program; `NoMemory` if memory runs out first.
pub fn resolve_clause(
    clause_context: &ClauseContext<'_>,
    outer: &Outer,
    block: Span,
    tree: &ClauseTree,
) -> Result<Clause, NameFault>
    ensures resolved { IfOk result (IsClauseOf (scope_of clause_context.now) outer.now block tree.now) }
    ensures unknown { IfErr result (λ fault. IfUnknown fault (HasUnknown (scope_of clause_context.now) outer.now tree.now)) }
{
    let context = Context {
        alloc: clause_context.alloc,
        types: clause_context.types,
        outer,
    };
    match tree {
        ClauseTree::Pragma { .. } | ClauseTree::Variable(_) => Err(NameFault::Unknown),
        ClauseTree::Requires {
            span: at,
            condition: holds,
        } => condition(&context, block, *at, ConditionKind::Requires, holds),
        ClauseTree::Ensures {
            span: at,
            condition: holds,
        } => condition(&context, block, *at, ConditionKind::Ensures, holds),
        ClauseTree::AbortsIf {
            span: at,
            condition: holds,
            ..
        } => condition(&context, block, *at, ConditionKind::AbortsIf, holds),
        ClauseTree::Invariant {
            span: at,
            is_update,
            condition: holds,
        } => condition(&context, block, *at, invariant_kind(*is_update), holds),
        ClauseTree::Modifies { span: at, targets } => {
            modified(&context, block, *at, &targets.items)
        }
        ClauseTree::Let {
            span: at,
            is_post,
            value,
            ..
        } => bound(&context, block, *at, *is_post, value),
        ClauseTree::Include(include) => resolve_include(clause_context, outer, block, include),
    }
}

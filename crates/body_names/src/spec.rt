//! Resolution of the names in spec expressions.

pub mod building;
pub mod context;
pub mod expression;
pub mod fields;
pub mod forms;
pub mod name_list;
pub mod outer;
mod spans;
mod triggers;
mod values;

ghost use Rattle.std.specs.Prelude.{◌≡◌, ◌+◌, ℕ, List, [], ◌∷◌, ◌++◌, length, IfOk, IfErr, OnOk};
ghost use Rattle.syntax_tree.specs.SpecExpressionData.{binds_of, spec_expressions_of, spec_fields_of, triggers_of};
ghost use Rattle.program.specs.Trees.{BinaryTree, IfTree, ManyTree, MoreTrees, NoTrees, UnaryTree};
ghost use Rattle.program.specs.Listed.{AreSound, IsSound};
ghost use Rattle.scopes.specs.Meanings.{IfUnknown};
ghost use Rattle.body_names.specs.SpecAdded.{Added, AddedAll};
ghost use Rattle.body_names.specs.SpecForms.{domain_trees, domain_type, quantifier_of};
ghost use Rattle.body_names.specs.SpecSetting.{setting};
ghost use Rattle.body_names.specs.SpecNames.{entered_by, entered_by_all, variables_of, variables_of_all, variables_of_bind, variables_of_binds, variables_of_field, variables_of_fields, variables_of_trigger, variables_of_triggers};
ghost use Rattle.body_names.specs.SpecSpans.{spans_of, spans_of_all, spans_of_bind, spans_of_binds, spans_of_field, spans_of_fields, spans_of_trigger, spans_of_triggers};
ghost use Rattle.body_names.specs.SpecTrees.{bind_of, bind_tree, bind_trees, binds_in, field_tree, field_trees, spec_tree, spec_trees, terms_of_triggers, trigger_tree, trigger_trees};
ghost use Rattle.body_names.specs.Joined.{joined};

use crate::first_spans::path_span;
use crate::spec::building::Building;
use crate::spec::context::Context;
use crate::spec::fields::pack;
use crate::spec::forms::{call, domain, quantifier_of, spec_operator_of};
use crate::spec::spans::first_span;
use crate::spec::triggers::counts_of;
use crate::spec::values::{resolve_literal, resolve_shorthand, resolve_value};
use base::name::Name;
use base::span::Span;
use program::arena::Node;
use program::operator::Quantifier;
use program::sequence::Sequence;
use program::spec::{Bind as SpecBind, Domain as SpecDomain, SpecBinary, SpecMany, SpecUnary};
use scopes::fault::NameFault;
use syntax_tree::spec_expression::{Bind, Domain, SpecExpression, SpecField, SpecNode, Trigger};
use syntax_tree::types::SourceType;

/// Resolves a spec expression. The numbers of its variables continue from those before it.
#[cycle(resolve_spec)]
pub fn resolve_spec(
    context: &Context<'_>,
    into: &mut Building,
    expression: &SpecExpression,
) -> Result<usize, NameFault>
    ensures added { IfOk result (λ index. Added (spec_tree (setting context.now) into.old.scope (length into.old.variables) expression.now) (spans_of expression.now) (variables_of expression.now) into.old into.new index) }
    ensures scope { OnOk result (into.new.scope ≡ into.old.scope) }
    ensures unknown { IfErr result (λ fault. IfUnknown fault (IsSound (spec_tree (setting context.now) into.old.scope (length into.old.variables) expression.now) → ⊥)) }
{
    match &expression.node {
        SpecNode::Binary {
            left,
            operator,
            span,
            right,
        } => {
            let node = SpecBinary::Operator(spec_operator_of(*operator));
            resolve_two(context, into, left, right, node, *span)
        }
        SpecNode::Quantified {
            quantifier,
            span,
            binds,
            triggers,
            body,
        } => {
            let quantifier = quantifier_of(*quantifier);
            resolve_quantified(context, into, quantifier, *span, binds, triggers, body)
        }
        SpecNode::If {
            span,
            condition,
            then_branch,
            else_branch,
        } => { resolve_branches(context, into, *span, condition, then_branch, else_branch) }
        SpecNode::Not { span, operand } => {
            resolve_one(context, into, operand, SpecUnary::Not, *span)
        }
        SpecNode::Field { base, field } => {
            let name = field.text.try_clone(context.alloc)?;
            resolve_one(context, into, base, SpecUnary::Field(name), field.span)
        }
        SpecNode::Index { base, index } => {
            let span = first_span(base);
            resolve_two(context, into, base, index, SpecBinary::Index, span)
        }
        SpecNode::Literal(literal) => resolve_literal(context, into, literal),
        SpecNode::Path(path) => resolve_value(context, into, path),
        SpecNode::Call {
            function,
            arguments,
            values,
            ..
        } => {
            let node = call(context, function, arguments)?;
            resolve_call(context, into, values, node, path_span(function))
        }
        SpecNode::Pack {
            path,
            arguments,
            fields,
            ..
        } => {
            let node = pack(context, path, arguments, fields)?;
            resolve_pack(context, into, fields, node, path_span(path))
        }
        SpecNode::Parenthesized { inner, .. } => resolve_spec(context, into, inner),
    }
}

/// Resolves a form with one child.
#[cycle(resolve_spec)]
fn resolve_one(
    context: &Context<'_>,
    into: &mut Building,
    part: &SpecExpression,
    node: SpecUnary,
    span: Span,
) -> Result<usize, NameFault>
    ensures added { IfOk result (λ index. Added (UnaryTree node (spec_tree (setting context.now) into.old.scope (length into.old.variables) part.now)) (spans_of part.now ++ span ∷ []) (variables_of part.now) into.old into.new index) }
    ensures scope { OnOk result (into.new.scope ≡ into.old.scope) }
    ensures unknown { IfErr result (λ fault. IfUnknown fault (IsSound (UnaryTree node (spec_tree (setting context.now) into.old.scope (length into.old.variables) part.now)) → ⊥)) }
{
    let part = resolve_spec(context, into, part)?;
    let index = into.add(Node::Unary(node, part), span)?;
    Ok(index)
}

/// Resolves a form with two children, the first of which comes before the second in the source.
#[cycle(resolve_spec)]
fn resolve_two(
    context: &Context<'_>,
    into: &mut Building,
    left: &SpecExpression,
    right: &SpecExpression,
    node: SpecBinary,
    span: Span,
) -> Result<usize, NameFault>
    ensures added { IfOk result (λ index. Added (BinaryTree node (spec_tree (setting context.now) into.old.scope (length into.old.variables) left.now) (spec_tree (setting context.now) into.old.scope (length into.old.variables + length (variables_of left.now)) right.now)) ((spans_of left.now ++ spans_of right.now) ++ span ∷ []) (variables_of left.now ++ variables_of right.now) into.old into.new index) }
    ensures scope { OnOk result (into.new.scope ≡ into.old.scope) }
    ensures unknown { IfErr result (λ fault. IfUnknown fault (IsSound (BinaryTree node (spec_tree (setting context.now) into.old.scope (length into.old.variables) left.now) (spec_tree (setting context.now) into.old.scope (length into.old.variables + length (variables_of left.now)) right.now)) → ⊥)) }
{
    let left = resolve_spec(context, into, left)?;
    let right = resolve_spec(context, into, right)?;
    let index = into.add(Node::Binary(node, left, right), span)?;
    Ok(index)
}

/// Resolves a condition with two branches.
#[cycle(resolve_spec)]
fn resolve_branches(
    context: &Context<'_>,
    into: &mut Building,
    span: Span,
    condition: &SpecExpression,
    then_branch: &SpecExpression,
    else_branch: &SpecExpression,
) -> Result<usize, NameFault>
    ensures added { IfOk result (λ index. Added (IfTree (spec_tree (setting context.now) into.old.scope (length into.old.variables) condition.now) (spec_tree (setting context.now) into.old.scope (length into.old.variables + length (variables_of condition.now)) then_branch.now) (spec_tree (setting context.now) into.old.scope ((length into.old.variables + length (variables_of condition.now)) + length (variables_of then_branch.now)) else_branch.now)) (((spans_of condition.now ++ spans_of then_branch.now) ++ spans_of else_branch.now) ++ span ∷ []) ((variables_of condition.now ++ variables_of then_branch.now) ++ variables_of else_branch.now) into.old into.new index) }
    ensures scope { OnOk result (into.new.scope ≡ into.old.scope) }
    ensures unknown { IfErr result (λ fault. IfUnknown fault (IsSound (IfTree (spec_tree (setting context.now) into.old.scope (length into.old.variables) condition.now) (spec_tree (setting context.now) into.old.scope (length into.old.variables + length (variables_of condition.now)) then_branch.now) (spec_tree (setting context.now) into.old.scope ((length into.old.variables + length (variables_of condition.now)) + length (variables_of then_branch.now)) else_branch.now)) → ⊥)) }
{
    let condition = resolve_spec(context, into, condition)?;
    let then_branch = resolve_spec(context, into, then_branch)?;
    let else_branch = resolve_spec(context, into, else_branch)?;
    let index = into.add(Node::If(condition, then_branch, else_branch), span)?;
    Ok(index)
}

/// Resolves a call with its values.
#[cycle(resolve_spec)]
fn resolve_call(
    context: &Context<'_>,
    into: &mut Building,
    values: &[SpecExpression],
    node: SpecMany,
    span: Span,
) -> Result<usize, NameFault>
    ensures added { IfOk result (λ index. Added (ManyTree node (spec_trees (setting context.now) into.old.scope (length into.old.variables) (spec_expressions_of values.now))) (spans_of_all (spec_expressions_of values.now) ++ span ∷ []) (variables_of_all (spec_expressions_of values.now)) into.old into.new index) }
    ensures scope { OnOk result (into.new.scope ≡ into.old.scope) }
    ensures unknown { IfErr result (λ fault. IfUnknown fault (IsSound (ManyTree node (spec_trees (setting context.now) into.old.scope (length into.old.variables) (spec_expressions_of values.now))) → ⊥)) }
{
    let mut parts = Sequence::new(context.alloc);
    resolve_values(context, into, &mut parts, values)?;
    let index = into.add(Node::Many(node, parts), span)?;
    Ok(index)
}

/// Resolves spec expressions, one after another. Appends the indices of their nodes to `parts`.
#[cycle(resolve_spec)]
#[tactic(auto, using(syntax_tree::proofs::SmallerSpecs::spec_expression_smaller))]
pub fn resolve_values(
    context: &Context<'_>,
    into: &mut Building,
    parts: &mut Sequence<usize>,
    values: &[SpecExpression],
) -> Result<(), NameFault>
    ensures added { OnOk result (AddedAll (spec_trees (setting context.now) into.old.scope (length into.old.variables) (spec_expressions_of values.now)) (spans_of_all (spec_expressions_of values.now)) (variables_of_all (spec_expressions_of values.now)) into.old into.new parts.old parts.new) }
    ensures scope { OnOk result (into.new.scope ≡ into.old.scope) }
    ensures unknown { IfErr result (λ fault. IfUnknown fault (AreSound (spec_trees (setting context.now) into.old.scope (length into.old.variables) (spec_expressions_of values.now)) → ⊥)) }
{
    for value in values {
        resolve_part(context, into, parts, value)?;
    }
    Ok(())
}

/// Resolves a spec expression. Appends the index of its node to `parts`.
#[cycle(resolve_spec)]
fn resolve_part(
    context: &Context<'_>,
    into: &mut Building,
    parts: &mut Sequence<usize>,
    value: &SpecExpression,
) -> Result<(), NameFault>
    ensures added { OnOk result (AddedAll (MoreTrees (spec_tree (setting context.now) into.old.scope (length into.old.variables) value.now) NoTrees) (spans_of value.now) (variables_of value.now) into.old into.new parts.old parts.new) }
    ensures scope { OnOk result (into.new.scope ≡ into.old.scope) }
    ensures unknown { IfErr result (λ fault. IfUnknown fault (AreSound (MoreTrees (spec_tree (setting context.now) into.old.scope (length into.old.variables) value.now) NoTrees) → ⊥)) }
{
    let part = resolve_spec(context, into, value)?;
    parts.push(part)?;
    Ok(())
}

/// Resolves a struct value.
#[cycle(resolve_spec)]
fn resolve_pack(
    context: &Context<'_>,
    into: &mut Building,
    fields: &[SpecField],
    node: SpecMany,
    span: Span,
) -> Result<usize, NameFault>
    ensures added { IfOk result (λ index. Added (ManyTree node (field_trees (setting context.now) into.old.scope (length into.old.variables) (spec_fields_of fields.now))) (spans_of_fields (spec_fields_of fields.now) ++ span ∷ []) (variables_of_fields (spec_fields_of fields.now)) into.old into.new index) }
    ensures scope { OnOk result (into.new.scope ≡ into.old.scope) }
    ensures unknown { IfErr result (λ fault. IfUnknown fault (IsSound (ManyTree node (field_trees (setting context.now) into.old.scope (length into.old.variables) (spec_fields_of fields.now))) → ⊥)) }
{
    let mut parts = Sequence::new(context.alloc);
    resolve_fields(context, into, &mut parts, fields)?;
    let index = into.add(Node::Many(node, parts), span)?;
    Ok(index)
}

/// Resolves the values of fields, one after another. Appends the indices of their nodes to `parts`.
#[cycle(resolve_spec)]
#[tactic(auto, using(syntax_tree::proofs::SmallerSpecs::spec_field_smaller))]
pub fn resolve_fields(
    context: &Context<'_>,
    into: &mut Building,
    parts: &mut Sequence<usize>,
    fields: &[SpecField],
) -> Result<(), NameFault>
    ensures added { OnOk result (AddedAll (field_trees (setting context.now) into.old.scope (length into.old.variables) (spec_fields_of fields.now)) (spans_of_fields (spec_fields_of fields.now)) (variables_of_fields (spec_fields_of fields.now)) into.old into.new parts.old parts.new) }
    ensures scope { OnOk result (into.new.scope ≡ into.old.scope) }
    ensures unknown { IfErr result (λ fault. IfUnknown fault (AreSound (field_trees (setting context.now) into.old.scope (length into.old.variables) (spec_fields_of fields.now)) → ⊥)) }
{
    for field in fields {
        resolve_field_part(context, into, parts, field)?;
    }
    Ok(())
}

/// Resolves the value of a field. Appends the index of its node to `parts`.
#[cycle(resolve_spec)]
fn resolve_field_part(
    context: &Context<'_>,
    into: &mut Building,
    parts: &mut Sequence<usize>,
    field: &SpecField,
) -> Result<(), NameFault>
    ensures added { OnOk result (AddedAll (MoreTrees (field_tree (setting context.now) into.old.scope (length into.old.variables) field.now) NoTrees) (spans_of_field field.now) (variables_of_field field.now) into.old into.new parts.old parts.new) }
    ensures scope { OnOk result (into.new.scope ≡ into.old.scope) }
    ensures unknown { IfErr result (λ fault. IfUnknown fault (AreSound (MoreTrees (field_tree (setting context.now) into.old.scope (length into.old.variables) field.now) NoTrees) → ⊥)) }
{
    let part = resolve_field(context, into, field)?;
    parts.push(part)?;
    Ok(())
}

/// Resolves the value of a field: that of its name if none is written.
#[cycle(resolve_spec)]
fn resolve_field(
    context: &Context<'_>,
    into: &mut Building,
    field: &SpecField,
) -> Result<usize, NameFault>
    ensures added { IfOk result (λ index. Added (field_tree (setting context.now) into.old.scope (length into.old.variables) field.now) (spans_of_field field.now) (variables_of_field field.now) into.old into.new index) }
    ensures scope { OnOk result (into.new.scope ≡ into.old.scope) }
    ensures unknown { IfErr result (λ fault. IfUnknown fault (IsSound (field_tree (setting context.now) into.old.scope (length into.old.variables) field.now) → ⊥)) }
{
    match &field.value {
        None => resolve_shorthand(context, into, &field.name),
        Some(value) => resolve_spec(context, into, value),
    }
}

/// Resolves a quantifier. Its variables are in scope up to its end.
#[cycle(resolve_spec)]
fn resolve_quantified(
    context: &Context<'_>,
    into: &mut Building,
    quantifier: Quantifier,
    span: Span,
    binds: &[Bind],
    triggers: &[Trigger],
    body: &SpecExpression,
) -> Result<usize, NameFault>
    ensures added { IfOk result (λ index. Added (ManyTree (SpecMany.Quantified quantifier (binds_in ((setting context.now).types) (length into.old.variables) (binds_of binds.now)) (terms_of_triggers (triggers_of triggers.now))) (joined (joined (bind_trees (setting context.now) into.old.scope (length into.old.variables) (binds_of binds.now)) (trigger_trees (setting context.now) (into.old.scope ++ entered_by_all (length into.old.variables) (binds_of binds.now)) (length into.old.variables + length (variables_of_binds (binds_of binds.now))) (triggers_of triggers.now))) (MoreTrees (spec_tree (setting context.now) (into.old.scope ++ entered_by_all (length into.old.variables) (binds_of binds.now)) ((length into.old.variables + length (variables_of_binds (binds_of binds.now))) + length (variables_of_triggers (triggers_of triggers.now))) body.now) NoTrees))) (((spans_of_binds (binds_of binds.now) ++ spans_of_triggers (triggers_of triggers.now)) ++ spans_of body.now) ++ span ∷ []) ((variables_of_binds (binds_of binds.now) ++ variables_of_triggers (triggers_of triggers.now)) ++ variables_of body.now) into.old into.new index) }
    ensures scope { OnOk result (into.new.scope ≡ into.old.scope) }
    ensures unknown { IfErr result (λ fault. IfUnknown fault (IsSound (ManyTree (SpecMany.Quantified quantifier (binds_in ((setting context.now).types) (length into.old.variables) (binds_of binds.now)) (terms_of_triggers (triggers_of triggers.now))) (joined (joined (bind_trees (setting context.now) into.old.scope (length into.old.variables) (binds_of binds.now)) (trigger_trees (setting context.now) (into.old.scope ++ entered_by_all (length into.old.variables) (binds_of binds.now)) (length into.old.variables + length (variables_of_binds (binds_of binds.now))) (triggers_of triggers.now))) (MoreTrees (spec_tree (setting context.now) (into.old.scope ++ entered_by_all (length into.old.variables) (binds_of binds.now)) ((length into.old.variables + length (variables_of_binds (binds_of binds.now))) + length (variables_of_triggers (triggers_of triggers.now))) body.now) NoTrees))) → ⊥)) }
{
    let entered = into.scope.len();
    let mut parts = Sequence::new(context.alloc);
    let bound = resolve_parts(context, into, &mut parts, binds, triggers, body)?;
    let triggers = counts_of(context.alloc, triggers)?;
    let node = SpecMany::Quantified {
        quantifier,
        binds: bound,
        triggers,
    };
    let index = into.add(Node::Many(node, parts), span)?;
    into.scope.leave(entered);
    Ok(index)
}

/// Resolves the ranges of a quantifier's variables, the terms of its triggers, and its body. Returns the variables.
#[cycle(resolve_spec)]
fn resolve_parts(
    context: &Context<'_>,
    into: &mut Building,
    parts: &mut Sequence<usize>,
    binds: &[Bind],
    triggers: &[Trigger],
    body: &SpecExpression,
) -> Result<Sequence<SpecBind>, NameFault>
    ensures added { OnOk result (AddedAll (joined (joined (bind_trees (setting context.now) into.old.scope (length into.old.variables) (binds_of binds.now)) (trigger_trees (setting context.now) (into.old.scope ++ entered_by_all (length into.old.variables) (binds_of binds.now)) (length into.old.variables + length (variables_of_binds (binds_of binds.now))) (triggers_of triggers.now))) (MoreTrees (spec_tree (setting context.now) (into.old.scope ++ entered_by_all (length into.old.variables) (binds_of binds.now)) ((length into.old.variables + length (variables_of_binds (binds_of binds.now))) + length (variables_of_triggers (triggers_of triggers.now))) body.now) NoTrees)) ((spans_of_binds (binds_of binds.now) ++ spans_of_triggers (triggers_of triggers.now)) ++ spans_of body.now) ((variables_of_binds (binds_of binds.now) ++ variables_of_triggers (triggers_of triggers.now)) ++ variables_of body.now) into.old into.new parts.old parts.new) }
    ensures scope { OnOk result (into.new.scope ≡ into.old.scope ++ entered_by_all (length into.old.variables) (binds_of binds.now)) }
    ensures unknown { IfErr result (λ fault. IfUnknown fault (AreSound (joined (joined (bind_trees (setting context.now) into.old.scope (length into.old.variables) (binds_of binds.now)) (trigger_trees (setting context.now) (into.old.scope ++ entered_by_all (length into.old.variables) (binds_of binds.now)) (length into.old.variables + length (variables_of_binds (binds_of binds.now))) (triggers_of triggers.now))) (MoreTrees (spec_tree (setting context.now) (into.old.scope ++ entered_by_all (length into.old.variables) (binds_of binds.now)) ((length into.old.variables + length (variables_of_binds (binds_of binds.now))) + length (variables_of_triggers (triggers_of triggers.now))) body.now) NoTrees)) → ⊥)) }
    ensures bound { IfOk result (λ bound. bound ≡ binds_in ((setting context.now).types) (length into.old.variables) (binds_of binds.now)) }
{
    let bound = resolve_ranges(context, into, parts, binds, triggers)?;
    resolve_part(context, into, parts, body)?;
    Ok(bound)
}

/// Resolves the ranges of a quantifier's variables and the terms of its triggers. Returns the variables.
#[cycle(resolve_spec)]
fn resolve_ranges(
    context: &Context<'_>,
    into: &mut Building,
    parts: &mut Sequence<usize>,
    binds: &[Bind],
    triggers: &[Trigger],
) -> Result<Sequence<SpecBind>, NameFault>
    ensures added { OnOk result (AddedAll (joined (bind_trees (setting context.now) into.old.scope (length into.old.variables) (binds_of binds.now)) (trigger_trees (setting context.now) (into.old.scope ++ entered_by_all (length into.old.variables) (binds_of binds.now)) (length into.old.variables + length (variables_of_binds (binds_of binds.now))) (triggers_of triggers.now))) (spans_of_binds (binds_of binds.now) ++ spans_of_triggers (triggers_of triggers.now)) (variables_of_binds (binds_of binds.now) ++ variables_of_triggers (triggers_of triggers.now)) into.old into.new parts.old parts.new) }
    ensures scope { OnOk result (into.new.scope ≡ into.old.scope ++ entered_by_all (length into.old.variables) (binds_of binds.now)) }
    ensures unknown { IfErr result (λ fault. IfUnknown fault (AreSound (joined (bind_trees (setting context.now) into.old.scope (length into.old.variables) (binds_of binds.now)) (trigger_trees (setting context.now) (into.old.scope ++ entered_by_all (length into.old.variables) (binds_of binds.now)) (length into.old.variables + length (variables_of_binds (binds_of binds.now))) (triggers_of triggers.now))) → ⊥)) }
    ensures bound { IfOk result (λ bound. bound ≡ binds_in ((setting context.now).types) (length into.old.variables) (binds_of binds.now)) }
{
    let bound = resolve_binds(context, into, parts, binds)?;
    resolve_triggers(context, into, parts, triggers)?;
    Ok(bound)
}

/// Resolves the variables of a quantifier. Each is resolved in the scope of those before it.
#[cycle(resolve_spec)]
#[tactic(auto, using(syntax_tree::proofs::SmallerSpecs::bind_smaller))]
fn resolve_binds(
    context: &Context<'_>,
    into: &mut Building,
    parts: &mut Sequence<usize>,
    binds: &[Bind],
) -> Result<Sequence<SpecBind>, NameFault>
    ensures added { OnOk result (AddedAll (bind_trees (setting context.now) into.old.scope (length into.old.variables) (binds_of binds.now)) (spans_of_binds (binds_of binds.now)) (variables_of_binds (binds_of binds.now)) into.old into.new parts.old parts.new) }
    ensures scope { OnOk result (into.new.scope ≡ into.old.scope ++ entered_by_all (length into.old.variables) (binds_of binds.now)) }
    ensures unknown { IfErr result (λ fault. IfUnknown fault (AreSound (bind_trees (setting context.now) into.old.scope (length into.old.variables) (binds_of binds.now)) → ⊥)) }
    ensures bound { IfOk result (λ bound. bound ≡ binds_in ((setting context.now).types) (length into.old.variables) (binds_of binds.now)) }
{
    let mut bound = Sequence::new(context.alloc);
    for bind in binds {
        bound.push(resolve_bind(context, into, parts, bind)?)?;
    }
    Ok(bound)
}

/// Resolves a variable of a quantifier, which is in scope after its range.
#[cycle(resolve_spec)]
fn resolve_bind(
    context: &Context<'_>,
    into: &mut Building,
    parts: &mut Sequence<usize>,
    bind: &Bind,
) -> Result<SpecBind, NameFault>
    ensures added { OnOk result (AddedAll (bind_tree (setting context.now) into.old.scope (length into.old.variables) bind.now) (spans_of_bind bind.now) (variables_of_bind bind.now) into.old into.new parts.old parts.new) }
    ensures scope { OnOk result (into.new.scope ≡ into.old.scope ++ entered_by (length into.old.variables) bind.now) }
    ensures unknown { IfErr result (λ fault. IfUnknown fault (AreSound (bind_tree (setting context.now) into.old.scope (length into.old.variables) bind.now) → ⊥)) }
    ensures bound { IfOk result (λ bound. bound ≡ bind_of ((setting context.now).types) (length into.old.variables) bind.now) }
{
    match &bind.domain {
        Domain::Of(source) => resolve_typed(context, into, &bind.name.text, source),
        Domain::In(range) => resolve_range(context, into, parts, &bind.name.text, range),
    }
}

/// Resolves a variable of a quantifier that ranges over a type.
fn resolve_typed(
    context: &Context<'_>,
    into: &mut Building,
    name: &Name,
    source: &SourceType,
) -> Result<SpecBind, NameFault>
    ensures added { (parts : List ℕ) → OnOk result (AddedAll (domain_trees ((setting context.now).types) source.now) [] (name.now ∷ []) into.old into.new parts parts) }
    ensures scope { OnOk result (into.new.scope ≡ into.old.scope ++ record { name = name.now; number = length into.old.variables } ∷ []) }
    ensures unknown { IfErr result (λ fault. IfUnknown fault (AreSound (domain_trees ((setting context.now).types) source.now) → ⊥)) }
    ensures bound { IfOk result (λ bound. bound ≡ record { variable = length into.old.variables; domain = SpecDomain.Of (domain_type ((setting context.now).types) source.now) }) }
{
    let term = domain(context, source)?;
    let variable = into.bind(name.try_clone(context.alloc)?)?;
    into.enter(context.alloc, name, variable)?;
    Ok(SpecBind {
        variable,
        domain: SpecDomain::Of(term),
    })
}

/// Resolves a variable of a quantifier that ranges over integers. The variables before it are in scope in its range.
#[cycle(resolve_spec)]
fn resolve_range(
    context: &Context<'_>,
    into: &mut Building,
    parts: &mut Sequence<usize>,
    name: &Name,
    range: &SpecExpression,
) -> Result<SpecBind, NameFault>
    ensures added { OnOk result (AddedAll (MoreTrees (spec_tree (setting context.now) into.old.scope (length into.old.variables + 1) range.now) NoTrees) (spans_of range.now) (name.now ∷ variables_of range.now) into.old into.new parts.old parts.new) }
    ensures scope { OnOk result (into.new.scope ≡ into.old.scope ++ record { name = name.now; number = length into.old.variables } ∷ []) }
    ensures unknown { IfErr result (λ fault. IfUnknown fault (AreSound (MoreTrees (spec_tree (setting context.now) into.old.scope (length into.old.variables + 1) range.now) NoTrees) → ⊥)) }
    ensures bound { IfOk result (λ bound. bound ≡ record { variable = length into.old.variables; domain = SpecDomain.In }) }
{
    let variable = into.bind(name.try_clone(context.alloc)?)?;
    resolve_part(context, into, parts, range)?;
    into.enter(context.alloc, name, variable)?;
    Ok(SpecBind {
        variable,
        domain: SpecDomain::In,
    })
}

/// Resolves the terms of triggers, one trigger after another. Appends the indices of their nodes to `parts`.
#[cycle(resolve_spec)]
#[tactic(auto, using(syntax_tree::proofs::SmallerSpecs::trigger_smaller))]
fn resolve_triggers(
    context: &Context<'_>,
    into: &mut Building,
    parts: &mut Sequence<usize>,
    triggers: &[Trigger],
) -> Result<(), NameFault>
    ensures added { OnOk result (AddedAll (trigger_trees (setting context.now) into.old.scope (length into.old.variables) (triggers_of triggers.now)) (spans_of_triggers (triggers_of triggers.now)) (variables_of_triggers (triggers_of triggers.now)) into.old into.new parts.old parts.new) }
    ensures scope { OnOk result (into.new.scope ≡ into.old.scope) }
    ensures unknown { IfErr result (λ fault. IfUnknown fault (AreSound (trigger_trees (setting context.now) into.old.scope (length into.old.variables) (triggers_of triggers.now)) → ⊥)) }
{
    for trigger in triggers {
        resolve_trigger(context, into, parts, trigger)?;
    }
    Ok(())
}

/// Resolves the terms of a trigger. Appends the indices of their nodes to `parts`.
#[cycle(resolve_spec)]
fn resolve_trigger(
    context: &Context<'_>,
    into: &mut Building,
    parts: &mut Sequence<usize>,
    trigger: &Trigger,
) -> Result<(), NameFault>
    ensures added { OnOk result (AddedAll (trigger_tree (setting context.now) into.old.scope (length into.old.variables) trigger.now) (spans_of_trigger trigger.now) (variables_of_trigger trigger.now) into.old into.new parts.old parts.new) }
    ensures scope { OnOk result (into.new.scope ≡ into.old.scope) }
    ensures unknown { IfErr result (λ fault. IfUnknown fault (AreSound (trigger_tree (setting context.now) into.old.scope (length into.old.variables) trigger.now) → ⊥)) }
{
    resolve_values(context, into, parts, &trigger.items)
}

//! Resolution of the names in code.

pub mod body;
pub mod building;
pub mod context;
mod fields;
pub mod forms;
mod lets;
pub mod loops;
mod patterns;
mod spans;
mod values;

ghost use Rattle.std.specs.Prelude.{◌≡◌, ◌+◌, [], ◌∷◌, ◌++◌, length, IfOk, IfErr, OnOk};
ghost use Rattle.syntax_tree.specs.ExpressionView.{unboxed};
ghost use Rattle.syntax_tree.specs.ExpressionData.{expressions_of, field_values_of, items_of, maybe_expression_of};
ghost use Rattle.program.specs.Trees.{BinaryTree, IfTree, ManyTree, UnaryTree};
ghost use Rattle.program.specs.Listed.{AreSound, IsSound};
ghost use Rattle.scopes.specs.Meanings.{IfUnknown};
ghost use Rattle.body_names.specs.CodeAdded.{Added, AddedAll};
ghost use Rattle.body_names.specs.CodeNames.{entered_by, entered_by_all, names_of, names_of_block, names_of_expressions, names_of_field, names_of_fields, names_of_item, names_of_items, names_of_maybe, numbered};
ghost use Rattle.body_names.specs.CodeSpans.{first_span, own_spans, spans_of, spans_of_block, spans_of_expressions, spans_of_field, spans_of_fields, spans_of_item, spans_of_items, spans_of_maybe};
ghost use Rattle.body_names.specs.CodeTrees.{block_tree, code_tree, code_trees, field_tree, field_trees, if_tree, is_there, item_tree, item_trees, last_trees, let_tree, return_tree};
ghost use Rattle.body_names.specs.Joined.{joined};
ghost use Rattle.body_names.specs.CodeForms.{binary_tree, let_meaning};
ghost use Rattle.body_names.specs.LoopScopes.{begins_with_spec, loops_of, loops_of_block, loops_of_expressions, loops_of_field, loops_of_fields, loops_of_item, loops_of_items, loops_of_maybe, own_scope};
ghost use Rattle.body_names.specs.PatternTrees.{parenthesized, pattern_names, pattern_spans, pattern_tree};
ghost use Rattle.body_names.specs.CodeSetting.{setting};

use crate::code::building::Building;
use crate::code::context::Context;
use crate::code::fields::pack;
use crate::code::forms::{binding, call, cast, unary_of, vector};
use crate::code::lets::{Bound, declare};
use crate::code::loops::begins_with_spec;
use crate::code::patterns::resolve_pattern;
use crate::code::spans::first_span;
use crate::code::values::{resolve_literal, resolve_shorthand, resolve_use, resolve_value};
use crate::first_spans::path_span;
use crate::words::operator_of;
use base::span::Span;
use program::arena::Node;
use program::code::{CodeBinary, CodeLeaf, CodeMany, CodeUnary};
use program::sequence::Sequence;
use scopes::fault::NameFault;
use syntax_tree::expression::{Block, Expression, ExpressionNode, FieldValue, Item, ItemNode};
use syntax_tree::pattern::Pattern;
use syntax_tree::types::SourceType;

/// Resolves an expression. The numbers of its locals continue from those before it.
#[cycle(resolve_code)]
pub fn resolve_code(
    context: &Context<'_>,
    into: &mut Building,
    expression: &Expression,
) -> Result<usize, NameFault>
    ensures added { IfOk result (λ index. Added (code_tree (setting context.now) into.old.scope (length into.old.locals) expression.now) (spans_of expression.now) (names_of expression.now) (loops_of into.old.scope (length into.old.locals) (length into.old.body.spans) expression.now) into.old into.new index) }
    ensures scope { OnOk result (into.new.scope ≡ into.old.scope) }
    ensures unknown { IfErr result (λ fault. IfUnknown fault (IsSound (code_tree (setting context.now) into.old.scope (length into.old.locals) expression.now) → ⊥)) }
{
    match &expression.node {
        ExpressionNode::Binary {
            left,
            operator,
            span,
            right,
        } => {
            let node = CodeBinary::Operator(operator_of(*operator));
            resolve_two(context, into, left, right, node, *span)
        }
        ExpressionNode::Assign {
            target,
            span,
            value,
        } => { resolve_two(context, into, target, value, CodeBinary::Assign, *span) }
        ExpressionNode::If {
            span,
            condition,
            then_branch,
            else_branch,
        } => { resolve_if(context, into, *span, condition, then_branch, else_branch) }
        ExpressionNode::While {
            span,
            condition,
            body,
        } => { resolve_while(context, into, *span, condition, body) }
        ExpressionNode::Loop { span, body } => resolve_loop(context, into, *span, body),
        ExpressionNode::Return { span, value } => resolve_return(context, into, *span, value),
        ExpressionNode::Abort { span, code } => {
            resolve_one(context, into, code, CodeUnary::Abort, *span)
        }
        ExpressionNode::Break(span) => into.leaf(CodeLeaf::Break, *span),
        ExpressionNode::Continue(span) => into.leaf(CodeLeaf::Continue, *span),
        ExpressionNode::Unary {
            operator,
            span,
            operand,
        } => { resolve_one(context, into, operand, unary_of(*operator), *span) }
        ExpressionNode::Use { kind, span, local } => resolve_use(into, *kind, *span, local),
        ExpressionNode::Field { base, field } => {
            let name = field.text.try_clone(context.alloc)?;
            resolve_one(context, into, base, CodeUnary::Field(name), field.span)
        }
        ExpressionNode::Literal(literal) => resolve_literal(context, into, literal),
        ExpressionNode::Path(path) => resolve_value(context, into, path),
        ExpressionNode::Call {
            function,
            arguments,
            values,
            ..
        } => {
            let node = call(context, function, arguments)?;
            resolve_many(context, into, values, node, path_span(function))
        }
        ExpressionNode::Pack {
            path,
            arguments,
            fields,
            ..
        } => {
            let node = pack(context, path, arguments, fields)?;
            resolve_pack(context, into, fields, node, path_span(path))
        }
        ExpressionNode::Vector {
            span,
            arguments,
            items,
            ..
        } => {
            let node = vector(context, arguments)?;
            resolve_many(context, into, items, node, *span)
        }
        ExpressionNode::Assert {
            span,
            condition,
            code,
        } => { resolve_two(context, into, condition, code, CodeBinary::Assert, *span) }
        ExpressionNode::Tuple { span, items, .. } => resolve_tuple(context, into, *span, items),
        ExpressionNode::Cast {
            span,
            value,
            target,
        } => {
            let node = cast(context, target)?;
            resolve_one(context, into, value, node, *span)
        }
        ExpressionNode::Block(block) => resolve_block(context, into, block),
    }
}

/// Resolves a form with one child.
#[cycle(resolve_code)]
fn resolve_one(
    context: &Context<'_>,
    into: &mut Building,
    part: &Expression,
    node: CodeUnary,
    span: Span,
) -> Result<usize, NameFault>
    ensures added { IfOk result (λ index. Added (UnaryTree node (code_tree (setting context.now) into.old.scope (length into.old.locals) part.now)) (spans_of part.now ++ span ∷ []) (names_of part.now) (loops_of into.old.scope (length into.old.locals) (length into.old.body.spans) part.now) into.old into.new index) }
    ensures scope { OnOk result (into.new.scope ≡ into.old.scope) }
    ensures unknown { IfErr result (λ fault. IfUnknown fault (IsSound (UnaryTree node (code_tree (setting context.now) into.old.scope (length into.old.locals) part.now)) → ⊥)) }
{
    let part = resolve_code(context, into, part)?;
    let index = into.add(Node::Unary(node, part), span)?;
    Ok(index)
}

/// Resolves a form with two children, the first of which comes before the second in the source.
#[cycle(resolve_code)]
fn resolve_two(
    context: &Context<'_>,
    into: &mut Building,
    left: &Expression,
    right: &Expression,
    node: CodeBinary,
    span: Span,
) -> Result<usize, NameFault>
    ensures added { IfOk result (λ index. Added (BinaryTree node (code_tree (setting context.now) into.old.scope (length into.old.locals) left.now) (code_tree (setting context.now) into.old.scope (length into.old.locals + length (names_of left.now)) right.now)) ((spans_of left.now ++ spans_of right.now) ++ span ∷ []) (names_of left.now ++ names_of right.now) (loops_of into.old.scope (length into.old.locals) (length into.old.body.spans) left.now ++ loops_of into.old.scope (length into.old.locals + length (names_of left.now)) (length into.old.body.spans + length (spans_of left.now)) right.now) into.old into.new index) }
    ensures scope { OnOk result (into.new.scope ≡ into.old.scope) }
    ensures unknown { IfErr result (λ fault. IfUnknown fault (IsSound (BinaryTree node (code_tree (setting context.now) into.old.scope (length into.old.locals) left.now) (code_tree (setting context.now) into.old.scope (length into.old.locals + length (names_of left.now)) right.now)) → ⊥)) }
{
    let left = resolve_code(context, into, left)?;
    let right = resolve_code(context, into, right)?;
    let index = into.add(Node::Binary(node, left, right), span)?;
    Ok(index)
}

/// Resolves a condition with one or two branches.
#[cycle(resolve_code)]
fn resolve_if(
    context: &Context<'_>,
    into: &mut Building,
    span: Span,
    condition: &Expression,
    then_branch: &Expression,
    else_branch: &Option<Box<Expression>>,
) -> Result<usize, NameFault>
    ensures added { IfOk result (λ index. Added (if_tree (setting context.now) into.old.scope ((length into.old.locals + length (names_of condition.now)) + length (names_of then_branch.now)) (code_tree (setting context.now) into.old.scope (length into.old.locals) condition.now) (code_tree (setting context.now) into.old.scope (length into.old.locals + length (names_of condition.now)) then_branch.now) (maybe_expression_of (unboxed else_branch.now))) (((spans_of condition.now ++ spans_of then_branch.now) ++ spans_of_maybe (maybe_expression_of (unboxed else_branch.now))) ++ span ∷ []) ((names_of condition.now ++ names_of then_branch.now) ++ names_of_maybe (maybe_expression_of (unboxed else_branch.now))) ((loops_of into.old.scope (length into.old.locals) (length into.old.body.spans) condition.now ++ loops_of into.old.scope (length into.old.locals + length (names_of condition.now)) (length into.old.body.spans + length (spans_of condition.now)) then_branch.now) ++ loops_of_maybe into.old.scope ((length into.old.locals + length (names_of condition.now)) + length (names_of then_branch.now)) ((length into.old.body.spans + length (spans_of condition.now)) + length (spans_of then_branch.now)) (maybe_expression_of (unboxed else_branch.now))) into.old into.new index) }
    ensures scope { OnOk result (into.new.scope ≡ into.old.scope) }
    ensures unknown { IfErr result (λ fault. IfUnknown fault (IsSound (if_tree (setting context.now) into.old.scope ((length into.old.locals + length (names_of condition.now)) + length (names_of then_branch.now)) (code_tree (setting context.now) into.old.scope (length into.old.locals) condition.now) (code_tree (setting context.now) into.old.scope (length into.old.locals + length (names_of condition.now)) then_branch.now) (maybe_expression_of (unboxed else_branch.now))) → ⊥)) }
{
    match else_branch {
        None => resolve_plain_if(context, into, span, condition, then_branch),
        Some(branch) => resolve_branches(context, into, span, condition, then_branch, branch),
    }
}

/// Resolves an `if` without `else`.
#[cycle(resolve_code)]
fn resolve_plain_if(
    context: &Context<'_>,
    into: &mut Building,
    span: Span,
    condition: &Expression,
    then_branch: &Expression,
) -> Result<usize, NameFault>
    ensures added { IfOk result (λ index. Added (BinaryTree CodeBinary.If (code_tree (setting context.now) into.old.scope (length into.old.locals) condition.now) (code_tree (setting context.now) into.old.scope (length into.old.locals + length (names_of condition.now)) then_branch.now)) (((spans_of condition.now ++ spans_of then_branch.now) ++ []) ++ span ∷ []) ((names_of condition.now ++ names_of then_branch.now) ++ []) ((loops_of into.old.scope (length into.old.locals) (length into.old.body.spans) condition.now ++ loops_of into.old.scope (length into.old.locals + length (names_of condition.now)) (length into.old.body.spans + length (spans_of condition.now)) then_branch.now) ++ []) into.old into.new index) }
    ensures scope { OnOk result (into.new.scope ≡ into.old.scope) }
    ensures unknown { IfErr result (λ fault. IfUnknown fault (IsSound (BinaryTree CodeBinary.If (code_tree (setting context.now) into.old.scope (length into.old.locals) condition.now) (code_tree (setting context.now) into.old.scope (length into.old.locals + length (names_of condition.now)) then_branch.now)) → ⊥)) }
{
    resolve_two(context, into, condition, then_branch, CodeBinary::If, span)
}

/// Resolves an `if` with `else`.
#[cycle(resolve_code)]
fn resolve_branches(
    context: &Context<'_>,
    into: &mut Building,
    span: Span,
    condition: &Expression,
    then_branch: &Expression,
    else_branch: &Expression,
) -> Result<usize, NameFault>
    ensures added { IfOk result (λ index. Added (IfTree (code_tree (setting context.now) into.old.scope (length into.old.locals) condition.now) (code_tree (setting context.now) into.old.scope (length into.old.locals + length (names_of condition.now)) then_branch.now) (code_tree (setting context.now) into.old.scope ((length into.old.locals + length (names_of condition.now)) + length (names_of then_branch.now)) else_branch.now)) (((spans_of condition.now ++ spans_of then_branch.now) ++ spans_of else_branch.now) ++ span ∷ []) ((names_of condition.now ++ names_of then_branch.now) ++ names_of else_branch.now) ((loops_of into.old.scope (length into.old.locals) (length into.old.body.spans) condition.now ++ loops_of into.old.scope (length into.old.locals + length (names_of condition.now)) (length into.old.body.spans + length (spans_of condition.now)) then_branch.now) ++ loops_of into.old.scope ((length into.old.locals + length (names_of condition.now)) + length (names_of then_branch.now)) ((length into.old.body.spans + length (spans_of condition.now)) + length (spans_of then_branch.now)) else_branch.now) into.old into.new index) }
    ensures scope { OnOk result (into.new.scope ≡ into.old.scope) }
    ensures unknown { IfErr result (λ fault. IfUnknown fault (IsSound (IfTree (code_tree (setting context.now) into.old.scope (length into.old.locals) condition.now) (code_tree (setting context.now) into.old.scope (length into.old.locals + length (names_of condition.now)) then_branch.now) (code_tree (setting context.now) into.old.scope ((length into.old.locals + length (names_of condition.now)) + length (names_of then_branch.now)) else_branch.now)) → ⊥)) }
{
    let condition = resolve_code(context, into, condition)?;
    let then_branch = resolve_code(context, into, then_branch)?;
    let else_branch = resolve_code(context, into, else_branch)?;
    let index = into.add(Node::If(condition, then_branch, else_branch), span)?;
    Ok(index)
}

/// Resolves a `while`, and adds it to the loops if it has a spec block, which its condition begins with.
#[cycle(resolve_code)]
fn resolve_while(
    context: &Context<'_>,
    into: &mut Building,
    span: Span,
    condition: &Expression,
    body: &Expression,
) -> Result<usize, NameFault>
    ensures added { IfOk result (λ index. Added (BinaryTree CodeBinary.While (code_tree (setting context.now) into.old.scope (length into.old.locals) condition.now) (code_tree (setting context.now) into.old.scope (length into.old.locals + length (names_of condition.now)) body.now)) ((spans_of condition.now ++ spans_of body.now) ++ span ∷ []) (names_of condition.now ++ names_of body.now) (own_scope (begins_with_spec condition.now) ((length into.old.body.spans + length (spans_of condition.now)) + length (spans_of body.now)) into.old.scope ++ (loops_of into.old.scope (length into.old.locals) (length into.old.body.spans) condition.now ++ loops_of into.old.scope (length into.old.locals + length (names_of condition.now)) (length into.old.body.spans + length (spans_of condition.now)) body.now)) into.old into.new index) }
    ensures scope { OnOk result (into.new.scope ≡ into.old.scope) }
    ensures unknown { IfErr result (λ fault. IfUnknown fault (IsSound (BinaryTree CodeBinary.While (code_tree (setting context.now) into.old.scope (length into.old.locals) condition.now) (code_tree (setting context.now) into.old.scope (length into.old.locals + length (names_of condition.now)) body.now)) → ⊥)) }
{
    if !begins_with_spec(condition) {
        return resolve_two(context, into, condition, body, CodeBinary::While, span);
    }
    let number = into.begin_loop(context.alloc)?;
    let index = resolve_two(context, into, condition, body, CodeBinary::While, span)?;
    into.end_loop(number, index);
    Ok(index)
}

/// Resolves a `loop`, and adds it to the loops if it has a spec block, which its body begins with.
#[cycle(resolve_code)]
fn resolve_loop(
    context: &Context<'_>,
    into: &mut Building,
    span: Span,
    body: &Expression,
) -> Result<usize, NameFault>
    ensures added { IfOk result (λ index. Added (UnaryTree CodeUnary.Loop (code_tree (setting context.now) into.old.scope (length into.old.locals) body.now)) (spans_of body.now ++ span ∷ []) (names_of body.now) (own_scope (begins_with_spec body.now) (length into.old.body.spans + length (spans_of body.now)) into.old.scope ++ loops_of into.old.scope (length into.old.locals) (length into.old.body.spans) body.now) into.old into.new index) }
    ensures scope { OnOk result (into.new.scope ≡ into.old.scope) }
    ensures unknown { IfErr result (λ fault. IfUnknown fault (IsSound (UnaryTree CodeUnary.Loop (code_tree (setting context.now) into.old.scope (length into.old.locals) body.now)) → ⊥)) }
{
    if !begins_with_spec(body) {
        return resolve_one(context, into, body, CodeUnary::Loop, span);
    }
    let number = into.begin_loop(context.alloc)?;
    let index = resolve_one(context, into, body, CodeUnary::Loop, span)?;
    into.end_loop(number, index);
    Ok(index)
}

/// Resolves `return`, with or without a value.
#[cycle(resolve_code)]
fn resolve_return(
    context: &Context<'_>,
    into: &mut Building,
    span: Span,
    value: &Option<Box<Expression>>,
) -> Result<usize, NameFault>
    ensures added { IfOk result (λ index. Added (return_tree (setting context.now) into.old.scope (length into.old.locals) (maybe_expression_of (unboxed value.now))) (spans_of_maybe (maybe_expression_of (unboxed value.now)) ++ span ∷ []) (names_of_maybe (maybe_expression_of (unboxed value.now))) (loops_of_maybe into.old.scope (length into.old.locals) (length into.old.body.spans) (maybe_expression_of (unboxed value.now))) into.old into.new index) }
    ensures scope { OnOk result (into.new.scope ≡ into.old.scope) }
    ensures unknown { IfErr result (λ fault. IfUnknown fault (IsSound (return_tree (setting context.now) into.old.scope (length into.old.locals) (maybe_expression_of (unboxed value.now))) → ⊥)) }
{
    match value {
        None => into.leaf(CodeLeaf::Return, span),
        Some(value) => resolve_one(context, into, value, CodeUnary::Return, span),
    }
}

/// Resolves a form with a list of values.
#[cycle(resolve_code)]
fn resolve_many(
    context: &Context<'_>,
    into: &mut Building,
    values: &[Expression],
    node: CodeMany,
    span: Span,
) -> Result<usize, NameFault>
    ensures added { IfOk result (λ index. Added (ManyTree node (code_trees (setting context.now) into.old.scope (length into.old.locals) (expressions_of values.now))) (spans_of_expressions (expressions_of values.now) ++ span ∷ []) (names_of_expressions (expressions_of values.now)) (loops_of_expressions into.old.scope (length into.old.locals) (length into.old.body.spans) (expressions_of values.now)) into.old into.new index) }
    ensures scope { OnOk result (into.new.scope ≡ into.old.scope) }
    ensures unknown { IfErr result (λ fault. IfUnknown fault (IsSound (ManyTree node (code_trees (setting context.now) into.old.scope (length into.old.locals) (expressions_of values.now))) → ⊥)) }
{
    let parts = resolve_values(context, into, values)?;
    let index = into.add(Node::Many(node, parts), span)?;
    Ok(index)
}

/// Resolves values in parentheses. One value in parentheses is that value.
#[cycle(resolve_code)]
fn resolve_tuple(
    context: &Context<'_>,
    into: &mut Building,
    span: Span,
    items: &[Expression],
) -> Result<usize, NameFault>
    ensures added { IfOk result (λ index. Added (parenthesized CodeMany.Tuple (code_trees (setting context.now) into.old.scope (length into.old.locals) (expressions_of items.now))) (spans_of_expressions (expressions_of items.now) ++ own_spans span (expressions_of items.now)) (names_of_expressions (expressions_of items.now)) (loops_of_expressions into.old.scope (length into.old.locals) (length into.old.body.spans) (expressions_of items.now)) into.old into.new index) }
    ensures scope { OnOk result (into.new.scope ≡ into.old.scope) }
    ensures unknown { IfErr result (λ fault. IfUnknown fault (IsSound (parenthesized CodeMany.Tuple (code_trees (setting context.now) into.old.scope (length into.old.locals) (expressions_of items.now))) → ⊥)) }
{
    let parts = resolve_values(context, into, items)?;
    let index = into.parenthesized(CodeMany::Tuple, parts, span)?;
    Ok(index)
}

/// Resolves values, one after another. Returns the indices of their nodes.
#[cycle(resolve_code)]
#[tactic(auto, using(syntax_tree::proofs::SmallerExpressions::expression_smaller))]
fn resolve_values(
    context: &Context<'_>,
    into: &mut Building,
    values: &[Expression],
) -> Result<Sequence<usize>, NameFault>
    ensures added { IfOk result (λ parts. AddedAll (code_trees (setting context.now) into.old.scope (length into.old.locals) (expressions_of values.now)) (spans_of_expressions (expressions_of values.now)) (names_of_expressions (expressions_of values.now)) (loops_of_expressions into.old.scope (length into.old.locals) (length into.old.body.spans) (expressions_of values.now)) into.old into.new parts) }
    ensures scope { OnOk result (into.new.scope ≡ into.old.scope) }
    ensures unknown { IfErr result (λ fault. IfUnknown fault (AreSound (code_trees (setting context.now) into.old.scope (length into.old.locals) (expressions_of values.now)) → ⊥)) }
{
    let mut parts = Sequence::new(context.alloc);
    for value in values {
        let part = resolve_code(context, into, value)?;
        parts.push(part)?;
    }
    Ok(parts)
}

/// Resolves a struct value.
#[cycle(resolve_code)]
fn resolve_pack(
    context: &Context<'_>,
    into: &mut Building,
    fields: &[FieldValue],
    node: CodeMany,
    span: Span,
) -> Result<usize, NameFault>
    ensures added { IfOk result (λ index. Added (ManyTree node (field_trees (setting context.now) into.old.scope (length into.old.locals) (field_values_of fields.now))) (spans_of_fields (field_values_of fields.now) ++ span ∷ []) (names_of_fields (field_values_of fields.now)) (loops_of_fields into.old.scope (length into.old.locals) (length into.old.body.spans) (field_values_of fields.now)) into.old into.new index) }
    ensures scope { OnOk result (into.new.scope ≡ into.old.scope) }
    ensures unknown { IfErr result (λ fault. IfUnknown fault (IsSound (ManyTree node (field_trees (setting context.now) into.old.scope (length into.old.locals) (field_values_of fields.now))) → ⊥)) }
{
    let parts = resolve_fields(context, into, fields)?;
    let index = into.add(Node::Many(node, parts), span)?;
    Ok(index)
}

/// Resolves the values of fields, one after another. Returns the indices of their nodes.
#[cycle(resolve_code)]
#[tactic(auto, using(syntax_tree::proofs::SmallerExpressions::field_value_smaller))]
fn resolve_fields(
    context: &Context<'_>,
    into: &mut Building,
    fields: &[FieldValue],
) -> Result<Sequence<usize>, NameFault>
    ensures added { IfOk result (λ parts. AddedAll (field_trees (setting context.now) into.old.scope (length into.old.locals) (field_values_of fields.now)) (spans_of_fields (field_values_of fields.now)) (names_of_fields (field_values_of fields.now)) (loops_of_fields into.old.scope (length into.old.locals) (length into.old.body.spans) (field_values_of fields.now)) into.old into.new parts) }
    ensures scope { OnOk result (into.new.scope ≡ into.old.scope) }
    ensures unknown { IfErr result (λ fault. IfUnknown fault (AreSound (field_trees (setting context.now) into.old.scope (length into.old.locals) (field_values_of fields.now)) → ⊥)) }
{
    let mut parts = Sequence::new(context.alloc);
    for field in fields {
        let part = resolve_field(context, into, field)?;
        parts.push(part)?;
    }
    Ok(parts)
}

/// Resolves the value of a field: that of its name if none is written.
#[cycle(resolve_code)]
fn resolve_field(
    context: &Context<'_>,
    into: &mut Building,
    field: &FieldValue,
) -> Result<usize, NameFault>
    ensures added { IfOk result (λ index. Added (field_tree (setting context.now) into.old.scope (length into.old.locals) field.now) (spans_of_field field.now) (names_of_field field.now) (loops_of_field into.old.scope (length into.old.locals) (length into.old.body.spans) field.now) into.old into.new index) }
    ensures scope { OnOk result (into.new.scope ≡ into.old.scope) }
    ensures unknown { IfErr result (λ fault. IfUnknown fault (IsSound (field_tree (setting context.now) into.old.scope (length into.old.locals) field.now) → ⊥)) }
{
    match &field.value {
        None => resolve_shorthand(context, into, &field.name),
        Some(value) => resolve_code(context, into, value),
    }
}

/// Resolves a block. Its names are in scope up to its end.
#[cycle(resolve_code)]
pub fn resolve_block(
    context: &Context<'_>,
    into: &mut Building,
    block: &Block,
) -> Result<usize, NameFault>
    ensures added { IfOk result (λ index. Added (block_tree (setting context.now) into.old.scope (length into.old.locals) block.now) (spans_of_block block.now) (names_of_block block.now) (loops_of_block into.old.scope (length into.old.locals) (length into.old.body.spans) block.now) into.old into.new index) }
    ensures scope { OnOk result (into.new.scope ≡ into.old.scope) }
    ensures unknown { IfErr result (λ fault. IfUnknown fault (IsSound (block_tree (setting context.now) into.old.scope (length into.old.locals) block.now) → ⊥)) }
{
    let entered = into.scope.len();
    let parts = resolve_parts(context, into, &block.items, &block.value)?;
    let has_value = block.value.is_some();
    let index = into.add(Node::Many(CodeMany::Block { has_value }, parts), block.span)?;
    into.scope.leave(entered);
    Ok(index)
}

/// Resolves the items of a block, and its value after them.
#[cycle(resolve_code)]
fn resolve_parts(
    context: &Context<'_>,
    into: &mut Building,
    items: &[Item],
    value: &Option<Expression>,
) -> Result<Sequence<usize>, NameFault>
    ensures added { IfOk result (λ parts. AddedAll (joined (item_trees (setting context.now) into.old.scope (length into.old.locals) (items_of items.now)) (last_trees (setting context.now) (into.old.scope ++ entered_by_all (length into.old.locals) (items_of items.now)) (length into.old.locals + length (names_of_items (items_of items.now))) (maybe_expression_of value.now))) (spans_of_items (items_of items.now) ++ spans_of_maybe (maybe_expression_of value.now)) (names_of_items (items_of items.now) ++ names_of_maybe (maybe_expression_of value.now)) (loops_of_items into.old.scope (length into.old.locals) (length into.old.body.spans) (items_of items.now) ++ loops_of_maybe (into.old.scope ++ entered_by_all (length into.old.locals) (items_of items.now)) (length into.old.locals + length (names_of_items (items_of items.now))) (length into.old.body.spans + length (spans_of_items (items_of items.now))) (maybe_expression_of value.now)) into.old into.new parts) }
    ensures scope { OnOk result (into.new.scope ≡ into.old.scope ++ entered_by_all (length into.old.locals) (items_of items.now)) }
    ensures unknown { IfErr result (λ fault. IfUnknown fault (AreSound (joined (item_trees (setting context.now) into.old.scope (length into.old.locals) (items_of items.now)) (last_trees (setting context.now) (into.old.scope ++ entered_by_all (length into.old.locals) (items_of items.now)) (length into.old.locals + length (names_of_items (items_of items.now))) (maybe_expression_of value.now))) → ⊥)) }
{
    let mut parts = resolve_items(context, into, items)?;
    match value {
        None => Ok(parts),
        Some(value) => {
            let part = resolve_code(context, into, value)?;
            parts.push(part)?;
            Ok(parts)
        }
    }
}

/// Resolves the items of a block, each in the scope of those before it. Returns the indices of their nodes.
#[cycle(resolve_code)]
#[tactic(auto, using(syntax_tree::proofs::SmallerExpressions::item_smaller))]
fn resolve_items(
    context: &Context<'_>,
    into: &mut Building,
    items: &[Item],
) -> Result<Sequence<usize>, NameFault>
    ensures added { IfOk result (λ parts. AddedAll (item_trees (setting context.now) into.old.scope (length into.old.locals) (items_of items.now)) (spans_of_items (items_of items.now)) (names_of_items (items_of items.now)) (loops_of_items into.old.scope (length into.old.locals) (length into.old.body.spans) (items_of items.now)) into.old into.new parts) }
    ensures scope { OnOk result (into.new.scope ≡ into.old.scope ++ entered_by_all (length into.old.locals) (items_of items.now)) }
    ensures unknown { IfErr result (λ fault. IfUnknown fault (AreSound (item_trees (setting context.now) into.old.scope (length into.old.locals) (items_of items.now)) → ⊥)) }
{
    let mut parts = Sequence::new(context.alloc);
    for item in items {
        let part = resolve_item(context, into, item)?;
        parts.push(part)?;
    }
    Ok(parts)
}

/// Resolves an item of a block. Its names are in scope after it.
#[cycle(resolve_code)]
fn resolve_item(context: &Context<'_>, into: &mut Building, item: &Item) -> Result<usize, NameFault>
    ensures added { IfOk result (λ index. Added (item_tree (setting context.now) into.old.scope (length into.old.locals) item.now) (spans_of_item item.now) (names_of_item item.now) (loops_of_item into.old.scope (length into.old.locals) (length into.old.body.spans) item.now) into.old into.new index) }
    ensures scope { OnOk result (into.new.scope ≡ into.old.scope ++ entered_by (length into.old.locals) item.now) }
    ensures unknown { IfErr result (λ fault. IfUnknown fault (IsSound (item_tree (setting context.now) into.old.scope (length into.old.locals) item.now) → ⊥)) }
{
    match &item.node {
        ItemNode::Expression(expression) => resolve_discard(context, into, expression),
        ItemNode::Let {
            span,
            pattern,
            annotation,
            value,
        } => { resolve_let(context, into, *span, pattern, annotation, value) }
    }
}

/// Resolves an expression whose value is discarded.
#[cycle(resolve_code)]
fn resolve_discard(
    context: &Context<'_>,
    into: &mut Building,
    expression: &Expression,
) -> Result<usize, NameFault>
    ensures added { IfOk result (λ index. Added (UnaryTree CodeUnary.Discard (code_tree (setting context.now) into.old.scope (length into.old.locals) expression.now)) (spans_of expression.now ++ first_span expression.now ∷ []) (names_of expression.now) (loops_of into.old.scope (length into.old.locals) (length into.old.body.spans) expression.now) into.old into.new index) }
    ensures scope { OnOk result (into.new.scope ≡ into.old.scope ++ []) }
    ensures unknown { IfErr result (λ fault. IfUnknown fault (IsSound (UnaryTree CodeUnary.Discard (code_tree (setting context.now) into.old.scope (length into.old.locals) expression.now)) → ⊥)) }
{
    resolve_one(
        context,
        into,
        expression,
        CodeUnary::Discard,
        first_span(expression),
    )
}

/// Resolves a `let`. Its names are in scope after it.
#[cycle(resolve_code)]
fn resolve_let(
    context: &Context<'_>,
    into: &mut Building,
    span: Span,
    pattern: &Pattern,
    annotation: &Option<SourceType>,
    value: &Option<Box<Expression>>,
) -> Result<usize, NameFault>
    ensures added { IfOk result (λ index. Added (let_tree (setting context.now) into.old.scope (length into.old.locals + length (pattern_names pattern.now)) annotation.now (pattern_tree (setting context.now) (length into.old.locals) pattern.now) (maybe_expression_of (unboxed value.now))) ((pattern_spans pattern.now ++ spans_of_maybe (maybe_expression_of (unboxed value.now))) ++ span ∷ []) (pattern_names pattern.now ++ names_of_maybe (maybe_expression_of (unboxed value.now))) (loops_of_maybe into.old.scope (length into.old.locals + length (pattern_names pattern.now)) (length into.old.body.spans + length (pattern_spans pattern.now)) (maybe_expression_of (unboxed value.now))) into.old into.new index) }
    ensures scope { OnOk result (into.new.scope ≡ into.old.scope ++ numbered (length into.old.locals) (pattern_names pattern.now)) }
    ensures unknown { IfErr result (λ fault. IfUnknown fault (IsSound (let_tree (setting context.now) into.old.scope (length into.old.locals + length (pattern_names pattern.now)) annotation.now (pattern_tree (setting context.now) (length into.old.locals) pattern.now) (maybe_expression_of (unboxed value.now))) → ⊥)) }
{
    let from = into.locals.as_slice().len();
    let bound = resolve_bound(context, into, span, pattern, annotation, value)?;
    into.enter(context.alloc, from, bound.until)?;
    Ok(bound.index)
}

/// Resolves a `let`, before its names are in scope.
#[cycle(resolve_code)]
fn resolve_bound(
    context: &Context<'_>,
    into: &mut Building,
    span: Span,
    pattern: &Pattern,
    annotation: &Option<SourceType>,
    value: &Option<Box<Expression>>,
) -> Result<Bound, NameFault>
    ensures added { IfOk result (λ bound. Added (let_tree (setting context.now) into.old.scope (length into.old.locals + length (pattern_names pattern.now)) annotation.now (pattern_tree (setting context.now) (length into.old.locals) pattern.now) (maybe_expression_of (unboxed value.now))) ((pattern_spans pattern.now ++ spans_of_maybe (maybe_expression_of (unboxed value.now))) ++ span ∷ []) (pattern_names pattern.now ++ names_of_maybe (maybe_expression_of (unboxed value.now))) (loops_of_maybe into.old.scope (length into.old.locals + length (pattern_names pattern.now)) (length into.old.body.spans + length (pattern_spans pattern.now)) (maybe_expression_of (unboxed value.now))) into.old into.new bound.index) }
    ensures until { IfOk result (λ bound. bound.until ≡ length into.old.locals + length (pattern_names pattern.now)) }
    ensures scope { OnOk result (into.new.scope ≡ into.old.scope) }
    ensures unknown { IfErr result (λ fault. IfUnknown fault (IsSound (let_tree (setting context.now) into.old.scope (length into.old.locals + length (pattern_names pattern.now)) annotation.now (pattern_tree (setting context.now) (length into.old.locals) pattern.now) (maybe_expression_of (unboxed value.now))) → ⊥)) }
{
    match value {
        None => declare(context, into, span, pattern, annotation),
        Some(value) => resolve_binding(context, into, span, pattern, annotation, value),
    }
}

/// Resolves a `let` with a value. The names before the `let` are in scope in the value.
#[cycle(resolve_code)]
fn resolve_binding(
    context: &Context<'_>,
    into: &mut Building,
    span: Span,
    pattern: &Pattern,
    annotation: &Option<SourceType>,
    value: &Expression,
) -> Result<Bound, NameFault>
    ensures added { IfOk result (λ bound. Added (binary_tree (let_meaning (setting context.now) annotation.now) (pattern_tree (setting context.now) (length into.old.locals) pattern.now) (code_tree (setting context.now) into.old.scope (length into.old.locals + length (pattern_names pattern.now)) value.now)) ((pattern_spans pattern.now ++ spans_of value.now) ++ span ∷ []) (pattern_names pattern.now ++ names_of value.now) (loops_of into.old.scope (length into.old.locals + length (pattern_names pattern.now)) (length into.old.body.spans + length (pattern_spans pattern.now)) value.now) into.old into.new bound.index) }
    ensures until { IfOk result (λ bound. bound.until ≡ length into.old.locals + length (pattern_names pattern.now)) }
    ensures scope { OnOk result (into.new.scope ≡ into.old.scope) }
    ensures unknown { IfErr result (λ fault. IfUnknown fault (IsSound (binary_tree (let_meaning (setting context.now) annotation.now) (pattern_tree (setting context.now) (length into.old.locals) pattern.now) (code_tree (setting context.now) into.old.scope (length into.old.locals + length (pattern_names pattern.now)) value.now)) → ⊥)) }
{
    let pattern = resolve_pattern(context, into, pattern)?;
    let until = into.locals.as_slice().len();
    let value = resolve_code(context, into, value)?;
    let node = binding(context, annotation)?;
    let index = into.add(Node::Binary(node, pattern, value), span)?;
    Ok(Bound { index, until })
}

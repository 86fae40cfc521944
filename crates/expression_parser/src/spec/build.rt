//! Builds spec expressions from their parts.

ghost use Rattle.std.specs.Prelude.{◌≡◌, IfOk};
ghost use Rattle.syntax_tree.specs.SpecExpressionData.{SpecBinary, SpecQuantified, SpecIf, SpecNot, SpecIndex, SpecField, SpecParenthesized, binds_of, triggers_of};

use base::memory::NoMemory;
use base::span::Span;
use std::alloc::Global;
use syntax_tree::lexeme::Identifier;
use syntax_tree::spec_expression::operator::{Quantifier, SpecOperator};
use syntax_tree::spec_expression::{Bind, SpecExpression, SpecNode, Trigger};

/// Builds a binary expression.
pub fn joined(
    alloc: Global,
    left: Box<SpecExpression>,
    operator: SpecOperator,
    span: Span,
    right: Box<SpecExpression>,
) -> Result<Box<SpecExpression>, NoMemory>
    ensures { IfOk result (λ whole. whole.value ≡ SpecBinary left.value operator span right.value) }
{
    let node = SpecNode::Binary {
        left,
        operator,
        span,
        right,
    };
    Ok(Box::new(alloc, SpecExpression { node })?)
}

/// Builds a quantified expression.
pub fn quantified(
    alloc: Global,
    quantifier: Quantifier,
    span: Span,
    binds: Vec<Bind>,
    triggers: Vec<Trigger>,
    body: Box<SpecExpression>,
) -> Result<Box<SpecExpression>, NoMemory>
    ensures { IfOk result (λ whole. whole.value ≡ SpecQuantified quantifier span (binds_of binds.items) (triggers_of triggers.items) body.value) }
{
    let node = SpecNode::Quantified {
        quantifier,
        span,
        binds,
        triggers,
        body,
    };
    Ok(Box::new(alloc, SpecExpression { node })?)
}

/// Builds an `if` with both its branches.
pub fn conditional(
    alloc: Global,
    span: Span,
    condition: Box<SpecExpression>,
    then_branch: Box<SpecExpression>,
    else_branch: Box<SpecExpression>,
) -> Result<Box<SpecExpression>, NoMemory>
    ensures { IfOk result (λ whole. whole.value ≡ SpecIf span condition.value then_branch.value else_branch.value) }
{
    let node = SpecNode::If {
        span,
        condition,
        then_branch,
        else_branch,
    };
    Ok(Box::new(alloc, SpecExpression { node })?)
}

/// Builds a `!` applied to an expression.
pub fn negated(
    alloc: Global,
    span: Span,
    operand: Box<SpecExpression>,
) -> Result<Box<SpecExpression>, NoMemory>
    ensures { IfOk result (λ whole. whole.value ≡ SpecNot span operand.value) }
{
    let node = SpecNode::Not { span, operand };
    Ok(Box::new(alloc, SpecExpression { node })?)
}

/// Builds the selection of a field of a term.
pub fn field_of(
    alloc: Global,
    base: Box<SpecExpression>,
    field: Identifier,
) -> Result<Box<SpecExpression>, NoMemory>
    ensures { IfOk result (λ whole. whole.value ≡ SpecField base.value field) }
{
    let node = SpecNode::Field { base, field };
    Ok(Box::new(alloc, SpecExpression { node })?)
}

/// Builds the selection of an item of a term.
pub fn item_of(
    alloc: Global,
    base: Box<SpecExpression>,
    index: Box<SpecExpression>,
) -> Result<Box<SpecExpression>, NoMemory>
    ensures { IfOk result (λ whole. whole.value ≡ SpecIndex base.value index.value) }
{
    let node = SpecNode::Index { base, index };
    Ok(Box::new(alloc, SpecExpression { node })?)
}

/// Builds an expression in parentheses.
pub fn parenthesized(
    alloc: Global,
    span: Span,
    inner: Box<SpecExpression>,
) -> Result<Box<SpecExpression>, NoMemory>
    ensures { IfOk result (λ whole. whole.value ≡ SpecParenthesized span inner.value) }
{
    let node = SpecNode::Parenthesized { span, inner };
    Ok(Box::new(alloc, SpecExpression { node })?)
}

//! The spans of paths, types and expressions.

ghost use Rattle.std.specs.Prelude.{◌≡◌, Some};
ghost use Rattle.syntax_tree.specs.PathSpelling.{path_spelling};
ghost use Rattle.syntax_tree.specs.TypeSpelling.{type_spelling};
ghost use Rattle.syntax_tree.specs.TypeTreeData.{SourceTypeData};
ghost use Rattle.syntax_tree.specs.declared.path.Path.{Path};
ghost use Rattle.syntax_tree.specs.ExpressionData.{ExpressionData};
ghost use Rattle.syntax_tree.specs.ExpressionSpelling.{expression_spelling};
ghost use Rattle.syntax_tree.specs.SpecExpressionData.{SpecExpressionData};
ghost use Rattle.syntax_tree.specs.SpecExpressionSpelling.{spec_spelling};
ghost use Rattle.syntax_tree.specs.TreeSpans.{address_span, expression_span, first_token_span, literal_span, path_span, spec_expression_span, type_span};

use crate::expression::{Expression, ExpressionNode};
use crate::literal::Literal;
use crate::path::{Address, Path as SourcePath};
use crate::spec_expression::{SpecExpression, SpecNode};
use crate::types::{SourceType, SourceTypeNode};
use base::span::Span;

/// Returns the span of an address.
fn address_span(address: &Address) -> Span
    ensures { result ≡ address_span address.now }
{
    match address {
        Address::Number(number) => number.span,
        Address::Name(name) => name.span,
    }
}

/// Returns the span of a path's first token.
pub fn path_span(path: &SourcePath) -> Span
    ensures { result ≡ path_span path.now }
{
    match path {
        SourcePath::Name(name) => name.span,
        SourcePath::Member(owner, _) => owner.span,
        SourcePath::Full(owner, _) => address_span(&owner.address),
    }
}

/// Returns the span of a literal's first token.
fn literal_span(literal: &Literal) -> Span
    ensures { result ≡ literal_span literal.now }
{
    match literal {
        Literal::Number(number) => number.span,
        Literal::Truth { span, .. } => *span,
        Literal::Address { span, .. } => *span,
    }
}

/// Returns the span of a type's first token.
pub fn type_span(source_type: &SourceType) -> Span
    ensures { result ≡ type_span source_type.now }
{
    match &source_type.node {
        SourceTypeNode::Shared { span, .. } => *span,
        SourceTypeNode::Mutable { span, .. } => *span,
        SourceTypeNode::Named { path, .. } => path_span(path),
        SourceTypeNode::Tuple { span, .. } => *span,
    }
}

/// Returns the span of an expression's first token.
pub fn expression_span(expression: &Expression) -> Span
    ensures { result ≡ expression_span expression.now }
{
    match &expression.node {
        ExpressionNode::Binary { left, .. } => expression_span(left),
        ExpressionNode::Assign { target, .. } => expression_span(target),
        ExpressionNode::Field { base, .. } => expression_span(base),
        ExpressionNode::Literal(literal) => literal_span(literal),
        ExpressionNode::Path(path) => path_span(path),
        ExpressionNode::Call { function, .. } => path_span(function),
        ExpressionNode::Pack { path, .. } => path_span(path),
        ExpressionNode::Block(block) => block.span,
        ExpressionNode::Break(span) | ExpressionNode::Continue(span) => *span,
        ExpressionNode::If { span, .. }
        | ExpressionNode::While { span, .. }
        | ExpressionNode::Loop { span, .. }
        | ExpressionNode::Return { span, .. }
        | ExpressionNode::Abort { span, .. }
        | ExpressionNode::Unary { span, .. }
        | ExpressionNode::Use { span, .. }
        | ExpressionNode::Vector { span, .. }
        | ExpressionNode::Assert { span, .. }
        | ExpressionNode::Tuple { span, .. }
        | ExpressionNode::Cast { span, .. } => *span,
    }
}

/// Returns the span of a spec expression's first token.
pub fn spec_expression_span(expression: &SpecExpression) -> Span
    ensures { result ≡ spec_expression_span expression.now }
{
    match &expression.node {
        SpecNode::Binary { left, .. } => spec_expression_span(left),
        SpecNode::Field { base, .. } => spec_expression_span(base),
        SpecNode::Index { base, .. } => spec_expression_span(base),
        SpecNode::Literal(literal) => literal_span(literal),
        SpecNode::Path(path) => path_span(path),
        SpecNode::Call { function, .. } => path_span(function),
        SpecNode::Pack { path, .. } => path_span(path),
        SpecNode::Quantified { span, .. }
        | SpecNode::If { span, .. }
        | SpecNode::Not { span, .. }
        | SpecNode::Parenthesized { span, .. } => *span,
    }
}

/// A law: each of these spans is that of the first token that spells the tree.
pub fn first_tokens()
    ensures paths { (path : Path) → first_token_span (path_spelling path) ≡ Some (path_span path) }
    ensures types { (t : SourceTypeData) → first_token_span (type_spelling t) ≡ Some (type_span t) }
    ensures expressions { (e : ExpressionData) → first_token_span (expression_spelling e) ≡ Some (expression_span e) }
    ensures specs { (e : SpecExpressionData) → first_token_span (spec_spelling e) ≡ Some (spec_expression_span e) }
{}

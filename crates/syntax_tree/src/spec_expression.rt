//! Spec expressions.

pub mod ending;
pub mod level;
pub mod operator;

use crate::lexeme::Identifier;
use crate::literal::Literal;
use crate::path::Path;
use crate::spec_expression::operator::{Quantifier, SpecOperator};
use crate::types::{SourceType, TypeArguments};
use base::span::Span;
use std::marker::Model;

/// A spec expression.
#[cycle(spec_expression)]
pub struct SpecExpression {
    pub node: SpecNode,
}

// A separate impl, so that each drop is a call and not the cases of all forms below it.
impl Drop for SpecExpression {
    #[cycle(drop_spec_expression)]
    fn drop(self) {
        let SpecExpression { node } = self;
        drop(node);
    }
}

/// The forms of a spec expression.
#[cycle(spec_expression)]
#[derive(Drop)]
pub enum SpecNode {
    Binary {
        left: Box<SpecExpression>,
        operator: SpecOperator,
        span: Span,
        right: Box<SpecExpression>,
    },
    Quantified {
        quantifier: Quantifier,
        span: Span,
        binds: Vec<Bind>,
        triggers: Vec<Trigger>,
        body: Box<SpecExpression>,
    },
    If {
        span: Span,
        condition: Box<SpecExpression>,
        then_branch: Box<SpecExpression>,
        else_branch: Box<SpecExpression>,
    },
    Not {
        span: Span,
        operand: Box<SpecExpression>,
    },
    Field {
        base: Box<SpecExpression>,
        field: Identifier,
    },
    Index {
        base: Box<SpecExpression>,
        index: Box<SpecExpression>,
    },
    Literal(Literal),
    Path(Path),
    Call {
        function: Path,
        arguments: Option<TypeArguments>,
        values: Vec<SpecExpression>,
        last_comma: bool,
    },
    Pack {
        path: Path,
        arguments: Option<TypeArguments>,
        fields: Vec<SpecField>,
        last_comma: bool,
    },
    Parenthesized {
        span: Span,
        inner: Box<SpecExpression>,
    },
}

/// A quantified variable and its domain.
#[cycle(spec_expression)]
#[derive(Drop)]
pub struct Bind {
    pub name: Identifier,
    pub domain: Domain,
}

/// A type, or a range.
#[cycle(spec_expression)]
#[derive(Drop)]
pub enum Domain {
    Of(SourceType),
    In(SpecExpression),
}

/// Expressions that, matched together, instantiate a quantifier.
#[cycle(spec_expression)]
#[derive(Drop)]
pub struct Trigger {
    pub items: Vec<SpecExpression>,
    pub last_comma: bool,
}

/// The value of a field of a struct: a variable of the field's name if none is written.
#[cycle(spec_expression)]
#[derive(Drop)]
pub struct SpecField {
    pub name: Identifier,
    pub value: Option<SpecExpression>,
}

impl Model for SpecExpression {
    ghost use Rattle.syntax_tree.specs.SpecExpressionData.{SpecExpressionData, spec_expression_size};
    ghost use Rattle.syntax_tree.specs.SpecExpressionCodes.{coded_spec_expression};

    ghost Value = { SpecExpressionData };

    ghost coded = { coded_spec_expression };

    ghost use Rattle.syntax_tree.specs.SpecExpressionView.{spec_of_node};

    ghost view = { λ a. spec_of_node a.node };

    ghost size = { spec_expression_size };

    ghost use Rattle.syntax_tree.specs.SpecExpressionFalls.{spec_falls};

    ghost size_decreases = { λ a h. spec_falls a.node };
}

impl Model for Bind {
    ghost use Rattle.syntax_tree.specs.SpecExpressionData.{BindData, bind_size};
    ghost use Rattle.syntax_tree.specs.SpecExpressionCodes.{coded_bind};

    ghost Value = { BindData };

    ghost coded = { coded_bind };

    ghost use Rattle.syntax_tree.specs.SpecExpressionView.{bind_of};

    ghost view = { λ a. bind_of a.name a.domain };

    ghost size = { bind_size };

    ghost use Rattle.syntax_tree.specs.SpecExpressionFalls.{bind_falls};

    ghost size_decreases = { λ a h. bind_falls a.name a.domain };
}

impl Model for Trigger {
    ghost use Rattle.syntax_tree.specs.SpecExpressionData.{TriggerData, TriggerOf, spec_expressions_of, trigger_size};
    ghost use Rattle.syntax_tree.specs.SpecExpressionCodes.{coded_trigger};

    ghost Value = { TriggerData };

    ghost coded = { coded_trigger };

    ghost view = { λ a. TriggerOf (spec_expressions_of a.items.items) a.last_comma };

    ghost size = { trigger_size };

    ghost use Rattle.syntax_tree.specs.SpecExpressionFalls.{trigger_falls};

    ghost size_decreases = { λ a h. trigger_falls a.items.items a.last_comma };
}

impl Model for SpecField {
    ghost use Rattle.syntax_tree.specs.SpecExpressionData.{SpecFieldData, spec_field_size};
    ghost use Rattle.syntax_tree.specs.SpecExpressionCodes.{coded_spec_field};

    ghost Value = { SpecFieldData };

    ghost coded = { coded_spec_field };

    ghost use Rattle.syntax_tree.specs.SpecExpressionView.{spec_field_of};

    ghost view = { λ a. spec_field_of a.name a.value };

    ghost size = { spec_field_size };

    ghost use Rattle.syntax_tree.specs.SpecExpressionFalls.{spec_field_falls};

    ghost size_decreases = { λ a h. spec_field_falls a.name a.value };
}

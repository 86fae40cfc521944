//! Expressions, blocks and their items.

pub mod ending;
pub mod level;

use crate::lexeme::Identifier;
use crate::literal::Literal;
use crate::operator::{BinaryOperator, UnaryOperator, UseKind};
use crate::path::Path;
use crate::pattern::Pattern;
use crate::spec_tokens::KeptSpec;
use crate::types::{SourceType, TypeArguments};
use base::span::Span;
use std::marker::Model;

/// An expression.
#[cycle(expression)]
pub struct Expression {
    pub node: ExpressionNode,
}

// A separate impl, so that each drop is a call and not the cases of all forms below it.
impl Drop for Expression {
    #[cycle(drop_expression)]
    fn drop(self) {
        let Expression { node } = self;
        drop(node);
    }
}

/// The forms of an expression. The span of each is that of its own first keyword or sign.
#[cycle(expression)]
#[derive(Drop)]
pub enum ExpressionNode {
    Binary {
        left: Box<Expression>,
        operator: BinaryOperator,
        span: Span,
        right: Box<Expression>,
    },
    Assign {
        target: Box<Expression>,
        span: Span,
        value: Box<Expression>,
    },
    If {
        span: Span,
        condition: Box<Expression>,
        then_branch: Box<Expression>,
        else_branch: Option<Box<Expression>>,
    },
    While {
        span: Span,
        condition: Box<Expression>,
        body: Box<Expression>,
    },
    Loop {
        span: Span,
        body: Box<Expression>,
    },
    Return {
        span: Span,
        value: Option<Box<Expression>>,
    },
    Abort {
        span: Span,
        code: Box<Expression>,
    },
    Break(Span),
    Continue(Span),
    Unary {
        operator: UnaryOperator,
        span: Span,
        operand: Box<Expression>,
    },
    /// `move x` or `copy x`
    Use {
        kind: UseKind,
        span: Span,
        local: Identifier,
    },
    Field {
        base: Box<Expression>,
        field: Identifier,
    },
    Literal(Literal),
    /// A local or a constant.
    Path(Path),
    Call {
        function: Path,
        arguments: Option<TypeArguments>,
        values: Vec<Expression>,
        last_comma: bool,
    },
    /// A struct that is packed.
    Pack {
        path: Path,
        arguments: Option<TypeArguments>,
        fields: Vec<FieldValue>,
        last_comma: bool,
    },
    /// `vector` and its items between brackets.
    Vector {
        span: Span,
        arguments: Option<TypeArguments>,
        items: Vec<Expression>,
        last_comma: bool,
    },
    /// `assert!` with its condition and its code.
    Assert {
        span: Span,
        condition: Box<Expression>,
        code: Box<Expression>,
    },
    /// Expressions between parentheses: a single one means itself.
    Tuple {
        span: Span,
        items: Vec<Expression>,
        last_comma: bool,
    },
    Cast {
        span: Span,
        value: Box<Expression>,
        target: SourceType,
    },
    Block(Box<Block>),
}

/// A block: its items, and the value after them.
#[cycle(expression)]
pub struct Block {
    pub span: Span,
    /// The spec block of the loop whose body or condition this block is.
    pub spec: Option<KeptSpec>,
    pub items: Vec<Item>,
    pub value: Option<Expression>,
}

// A separate impl, so that each drop is a call and not the cases of all forms below it.
impl Drop for Block {
    #[cycle(drop_expression)]
    fn drop(self) {
        let Block {
            span: _,
            spec,
            items,
            value,
        } = self;
        drop(spec);
        drop(items);
        drop(value);
    }
}

/// An item of a block.
#[cycle(expression)]
pub struct Item {
    pub node: ItemNode,
}

// A separate impl, so that each drop is a call and not the cases of all forms below it.
impl Drop for Item {
    #[cycle(drop_expression)]
    fn drop(self) {
        let Item { node } = self;
        drop(node);
    }
}

/// The forms of an item.
#[cycle(expression)]
#[derive(Drop)]
pub enum ItemNode {
    Expression(Box<Expression>),
    Let {
        span: Span,
        pattern: Pattern,
        annotation: Option<SourceType>,
        value: Option<Box<Expression>>,
    },
}

/// The value of a field of a struct: a local of the field's name if none is written.
#[cycle(expression)]
#[derive(Drop)]
pub struct FieldValue {
    pub name: Identifier,
    pub value: Option<Expression>,
}

impl Model for Expression {
    ghost use Rattle.syntax_tree.specs.ExpressionData.{ExpressionData, expression_size};
    ghost use Rattle.syntax_tree.specs.ExpressionCodes.{coded_expression};

    ghost Value = { ExpressionData };

    ghost coded = { coded_expression };

    ghost use Rattle.syntax_tree.specs.ExpressionView.{expression_of_node};

    ghost view = { λ a. expression_of_node a.node };

    ghost size = { expression_size };

    ghost use Rattle.syntax_tree.specs.ExpressionFalls.{expression_falls};

    ghost size_decreases = { λ a h. expression_falls a.node };
}

impl Model for Block {
    ghost use Rattle.syntax_tree.specs.ExpressionData.{BlockData, BlockOf, block_size, items_of, maybe_expression_of};
    ghost use Rattle.syntax_tree.specs.ExpressionCodes.{coded_block};

    ghost Value = { BlockData };

    ghost coded = { coded_block };

    ghost view = { λ a. BlockOf a.span a.spec (items_of a.items.items) (maybe_expression_of a.value) };

    ghost size = { block_size };

    ghost use Rattle.syntax_tree.specs.ExpressionFalls.{block_falls};

    ghost size_decreases = { λ a h. block_falls a.span a.spec a.items a.value };
}

impl Model for Item {
    ghost use Rattle.syntax_tree.specs.ExpressionData.{ItemData, item_size};
    ghost use Rattle.syntax_tree.specs.ExpressionCodes.{coded_item};

    ghost Value = { ItemData };

    ghost coded = { coded_item };

    ghost use Rattle.syntax_tree.specs.ExpressionView.{item_of_node};

    ghost view = { λ a. item_of_node a.node };

    ghost size = { item_size };

    ghost use Rattle.syntax_tree.specs.ExpressionFalls.{item_falls};

    ghost size_decreases = { λ a h. item_falls a.node };
}

impl Model for FieldValue {
    ghost use Rattle.syntax_tree.specs.ExpressionData.{FieldValueData, field_value_size};
    ghost use Rattle.syntax_tree.specs.ExpressionCodes.{coded_field_value};

    ghost Value = { FieldValueData };

    ghost coded = { coded_field_value };

    ghost use Rattle.syntax_tree.specs.ExpressionView.{field_value_of};

    ghost view = { λ a. field_value_of a.name a.value };

    ghost size = { field_value_size };

    ghost use Rattle.syntax_tree.specs.ExpressionFalls.{field_value_falls};

    ghost size_decreases = { λ a h. field_value_falls a.name a.value };
}

//! The blocks of expressions.

ghost use Rattle.std.specs.Prelude.{◌≡◌, [], ◌∷◌, ◌++◌, OnOk, map};
ghost use Rattle.syntax_tree.specs.ExpressionView.{unboxed};
ghost use Rattle.syntax_tree.specs.ExpressionData.{maybe_expression_of, expressions_of, items_of, field_values_of};
ghost use Rattle.syntax_tree.specs.Blocks.{blocks_of, blocks_of_maybe, blocks_of_block, blocks_of_items, blocks_of_item, blocks_of_field, blocks_of_expressions, blocks_of_fields};

use crate::expression::{Block, Expression, ExpressionNode, FieldValue, Item, ItemNode};
use base::memory::NoMemory;
use std::alloc::Global;
use std::marker::Model;

/// Blocks of a tree, in order.
#[derive(Drop)]
pub struct Blocks<'a> {
    items: Vec<&'a Block>,
}

impl<'a> Model for Blocks<'a> {
    ghost use Rattle.std.specs.Coded.{codes};
    ghost use Rattle.std.specs.Prelude.{List, map};
    ghost use Rattle.syntax_tree.specs.ExpressionCodes.{coded_block};
    ghost use Rattle.syntax_tree.specs.ExpressionData.{BlockData};

    ghost Value = { List BlockData };

    ghost coded = { Prim.hlevel (codes, coded_block) };

    ghost view = { λ b. map (λ block. block.now) b.items.items };
}

impl<'a> Blocks<'a> {
    /// Returns the empty list.
    pub fn new(alloc: Global) -> Blocks<'a>
        ensures { result ≡ [] }
    {
        Blocks {
            items: Vec::new(alloc),
        }
    }

    /// Returns the blocks, in order.
    pub fn as_slice(&self) -> &[&'a Block]
        ensures { map (λ block. block.now) result.now ≡ self.now }
    {
        self.items.as_slice()
    }

    /// Adds a block at the end.
    fn push(&mut self, block: &'a Block) -> Result<(), NoMemory>
        ensures { OnOk result (self.new ≡ self.old ++ block.now ∷ []) }
    {
        self.items.push(block)?;
        Ok(())
    }
}

/// Adds the blocks in an expression.
#[cycle(collect_blocks)]
pub fn collect_from_expression<'a>(
    expression: &'a Expression,
    into: &mut Blocks<'a>,
) -> Result<(), NoMemory>
    ensures { OnOk result (into.new ≡ into.old ++ blocks_of expression.now) }
{
    match &expression.node {
        ExpressionNode::Binary { left, right, .. } => {
            collect_from_expression(left, into)?;
            collect_from_expression(right, into)
        }
        ExpressionNode::Assign { target, value, .. } => {
            collect_from_expression(target, into)?;
            collect_from_expression(value, into)
        }
        ExpressionNode::If {
            condition,
            then_branch,
            else_branch,
            ..
        } => {
            collect_from_expression(condition, into)?;
            collect_from_expression(then_branch, into)?;
            collect_from_boxed(else_branch, into)
        }
        ExpressionNode::While {
            condition,
            body,
            ..
        } => {
            collect_from_expression(condition, into)?;
            collect_from_expression(body, into)
        }
        ExpressionNode::Loop { body, .. } => collect_from_expression(body, into),
        ExpressionNode::Return { value, .. } => collect_from_boxed(value, into),
        ExpressionNode::Abort { code, .. } => collect_from_expression(code, into),
        ExpressionNode::Break(_) => Ok(()),
        ExpressionNode::Continue(_) => Ok(()),
        ExpressionNode::Unary { operand, .. } => collect_from_expression(operand, into),
        ExpressionNode::Use { .. } => Ok(()),
        ExpressionNode::Field { base, .. } => collect_from_expression(base, into),
        ExpressionNode::Literal(_) => Ok(()),
        ExpressionNode::Path(_) => Ok(()),
        ExpressionNode::Call { values, .. } => collect_from_expressions(values, into),
        ExpressionNode::Pack { fields, .. } => collect_from_fields(fields, into),
        ExpressionNode::Vector { items, .. } => collect_from_expressions(items, into),
        ExpressionNode::Assert {
            condition,
            code,
            ..
        } => {
            collect_from_expression(condition, into)?;
            collect_from_expression(code, into)
        }
        ExpressionNode::Tuple { items, .. } => collect_from_expressions(items, into),
        ExpressionNode::Cast { value, .. } => collect_from_expression(value, into),
        ExpressionNode::Block(block) => collect_from_block(block, into),
    }
}

#[cycle(collect_blocks)]
fn collect_from_boxed<'a>(
    value: &'a Option<Box<Expression>>,
    into: &mut Blocks<'a>,
) -> Result<(), NoMemory>
    ensures { OnOk result (into.new ≡ into.old ++ blocks_of_maybe (maybe_expression_of (unboxed value.now))) }
{
    match value {
        None => Ok(()),
        Some(value) => collect_from_expression(value, into),
    }
}

#[cycle(collect_blocks)]
fn collect_from_value<'a>(
    value: &'a Option<Expression>,
    into: &mut Blocks<'a>,
) -> Result<(), NoMemory>
    ensures { OnOk result (into.new ≡ into.old ++ blocks_of_maybe (maybe_expression_of value.now)) }
{
    match value {
        None => Ok(()),
        Some(value) => collect_from_expression(value, into),
    }
}

#[cycle(collect_blocks)]
#[tactic(auto, using(crate::proofs::SmallerExpressions::expression_smaller))]
fn collect_from_expressions<'a>(
    expressions: &'a [Expression],
    into: &mut Blocks<'a>,
) -> Result<(), NoMemory>
    ensures { OnOk result (into.new ≡ into.old ++ blocks_of_expressions (expressions_of expressions.now)) }
{
    for one in expressions {
        collect_from_expression(one, into)?;
    }
    Ok(())
}

#[cycle(collect_blocks)]
fn collect_from_field<'a>(field: &'a FieldValue, into: &mut Blocks<'a>) -> Result<(), NoMemory>
    ensures { OnOk result (into.new ≡ into.old ++ blocks_of_field field.now) }
{
    match &field.value {
        None => Ok(()),
        Some(value) => collect_from_expression(value, into),
    }
}

#[cycle(collect_blocks)]
#[tactic(auto, using(crate::proofs::SmallerExpressions::field_value_smaller))]
fn collect_from_fields<'a>(fields: &'a [FieldValue], into: &mut Blocks<'a>) -> Result<(), NoMemory>
    ensures { OnOk result (into.new ≡ into.old ++ blocks_of_fields (field_values_of fields.now)) }
{
    for one in fields {
        collect_from_field(one, into)?;
    }
    Ok(())
}

/// Adds a block, and those in it.
#[cycle(collect_blocks)]
pub fn collect_from_block<'a>(block: &'a Block, into: &mut Blocks<'a>) -> Result<(), NoMemory>
    ensures { OnOk result (into.new ≡ into.old ++ blocks_of_block block.now) }
{
    into.push(block)?;
    collect_from_items(&block.items, into)?;
    collect_from_value(&block.value, into)
}

#[cycle(collect_blocks)]
#[tactic(auto, using(crate::proofs::SmallerExpressions::item_smaller))]
fn collect_from_items<'a>(items: &'a [Item], into: &mut Blocks<'a>) -> Result<(), NoMemory>
    ensures { OnOk result (into.new ≡ into.old ++ blocks_of_items (items_of items.now)) }
{
    for one in items {
        collect_from_item(one, into)?;
    }
    Ok(())
}

#[cycle(collect_blocks)]
fn collect_from_item<'a>(item: &'a Item, into: &mut Blocks<'a>) -> Result<(), NoMemory>
    ensures { OnOk result (into.new ≡ into.old ++ blocks_of_item item.now) }
{
    match &item.node {
        ItemNode::Expression(expression) => collect_from_expression(expression, into),
        ItemNode::Let { value, .. } => collect_from_boxed(value, into),
    }
}

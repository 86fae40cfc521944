//! Readers of blocks and their items.

ghost use Rattle.std.specs.Prelude.{length};
ghost use Rattle.syntax_tree.specs.ExpressionView.{unboxed};
ghost use Rattle.parser_base.specs.ReadFault.{Reads};
ghost use Rattle.expression_parser.specs.ExpressionReading.{body_at, body_block_at, initial_at, let_at, readers, step_at, step_behind, whole_contents_at};

use crate::expression::{read_boxed, read_expression};
use base::span::Span;
use parser_base::fault::ReadFault;
use parser_base::leaf::{read_annotation, read_spec_opening, read_spec_statement};
use parser_base::pattern::read_pattern;
use parser_base::signs::{expect_sign, skip_sign, span_of_word};
use std::alloc::Global;
use syntax_tree::expression::{Block, Expression, ExpressionNode, Item, ItemNode};
use tokens::token::{Punctuation, Token};

/// The next part of a block.
#[derive(Drop)]
pub enum BlockStep {
    /// The closing brace of the block, after its value if it has one.
    End(Option<Expression>),
    /// One more item.
    One(Item),
}

/// Reads the items of a block and its value after the opening brace. Returns them and the tokens after the closing
/// brace.
#[cycle(expression)]
pub fn read_contents(
    alloc: Global,
    tokens: &[Token],
    budget: usize,
) -> Result<(Vec<Item>, Option<Expression>, &[Token]), ReadFault>
    ensures { Reads result (λ read. ((read.0.items, read.1), read.2.now)) (whole_contents_at (readers budget) tokens.now) }
{
    let mut items = Vec::new(alloc);
    let mut rest = tokens;
    for _ in 0..tokens.len() {
        let (step, behind) = read_step(alloc, rest, budget)?;
        match step {
            BlockStep::End(value) => return Ok((items, value, behind)),
            BlockStep::One(item) => items.push(item)?,
        }
        rest = behind;
    }
    Err(ReadFault::NoTree { left: 0 })
}

/// Reads one item of a block, or its end.
#[cycle(expression)]
#[tactic(auto, unfolding(crate::specs::ExpressionReading::step_at))]
fn read_step(
    alloc: Global,
    tokens: &[Token],
    budget: usize,
) -> Result<(BlockStep, &[Token]), ReadFault>
    ensures { Reads result (λ read. (read.0, read.1.now)) (step_at (readers budget) tokens.now) }
{
    if let Some(rest) = skip_sign(tokens, Punctuation::RightBrace) {
        return Ok((BlockStep::End(None), rest));
    }
    if let Some((span, rest)) = span_of_word(tokens, b"let") {
        let (item, rest) = read_let(alloc, span, rest, budget)?;
        return Ok((BlockStep::One(item), rest));
    }
    let (expression, rest) = read_boxed(alloc, 0, tokens, budget)?;
    step_behind(expression, rest)
}

/// Reads an expression with its semicolon, or the value of a block with the closing brace.
#[tactic(auto, unfolding(crate::specs::ExpressionReading::step_behind))]
fn step_behind(
    expression: Box<Expression>,
    tokens: &[Token],
) -> Result<(BlockStep, &[Token]), ReadFault>
    ensures { Reads result (λ read. (read.0, read.1.now)) (step_behind expression.value tokens.now) }
{
    if let Some(rest) = skip_sign(tokens, Punctuation::Semicolon) {
        let node = ItemNode::Expression(expression);
        return Ok((BlockStep::One(Item { node }), rest));
    }
    match skip_sign(tokens, Punctuation::RightBrace) {
        Some(rest) => Ok((BlockStep::End(Some(Box::into_inner(expression))), rest)),
        None => Err(ReadFault::NoTree { left: tokens.len() }),
    }
}

/// Reads a `let` after its word. Returns it and the tokens after its semicolon.
#[cycle(expression)]
#[tactic(auto, unfolding(crate::specs::ExpressionReading::let_at))]
fn read_let(
    alloc: Global,
    span: Span,
    tokens: &[Token],
    budget: usize,
) -> Result<(Item, &[Token]), ReadFault>
    ensures { Reads result (λ read. (read.0, read.1.now)) (let_at (readers budget) span tokens.now) }
{
    let (pattern, rest) = read_pattern(alloc, tokens, budget)?;
    let (annotation, rest) = read_annotation(alloc, rest, budget)?;
    let (value, rest) = read_initial(alloc, rest, budget)?;
    let rest = expect_sign(rest, Punctuation::Semicolon)?;
    let node = ItemNode::Let {
        span,
        pattern,
        annotation,
        value,
    };
    Ok((Item { node }, rest))
}

/// Reads the value after `=`, if an `=` is here. Returns the value and the remaining tokens.
#[cycle(expression)]
#[tactic(auto, unfolding(crate::specs::ExpressionReading::initial_at))]
fn read_initial(
    alloc: Global,
    tokens: &[Token],
    budget: usize,
) -> Result<(Option<Box<Expression>>, &[Token]), ReadFault>
    ensures { Reads result (λ read. (unboxed read.0, read.1.now)) (initial_at (readers budget) tokens.now) }
{
    match skip_sign(tokens, Punctuation::Equal) {
        Some(rest) => {
            let (value, rest) = read_boxed(alloc, 0, rest, budget)?;
            Ok((Some(value), rest))
        }
        None => Ok((None, tokens)),
    }
}

/// Reads the condition of a `while` or the body of a `loop`: any expression, or a block with the spec block of the
/// loop. `valued` says whether such a block must have a value.
#[cycle(expression)]
#[tactic(auto, unfolding(crate::specs::ExpressionReading::body_at, crate::specs::ExpressionReading::spec_body_at))]
pub fn read_body(
    alloc: Global,
    valued: bool,
    tokens: &[Token],
    budget: usize,
) -> Result<(Expression, &[Token]), ReadFault>
    ensures { Reads result (λ read. (read.0, read.1.now)) (body_at (readers budget) valued tokens.now) }
{
    let Some((span, rest)) = read_spec_opening(tokens) else {
        return read_expression(alloc, 0, tokens, budget);
    };
    let (spec, rest) = read_spec_statement(alloc, rest)?;
    let (items, value, rest) = read_contents(alloc, rest, budget)?;
    if valued && value.is_none() {
        return Err(ReadFault::NoTree { left: rest.len() });
    }
    let block = Block {
        span,
        spec: Some(spec),
        items,
        value,
    };
    let node = ExpressionNode::Block(Box::new(alloc, block)?);
    Ok((Expression { node }, rest))
}

/// Reads the body of a function after its brace. Returns it and the tokens after the closing brace.
#[tactic(auto, unfolding(crate::specs::ExpressionReading::body_block_at))]
pub fn read_block(
    alloc: Global,
    span: Span,
    tokens: &[Token],
    budget: usize,
) -> Result<(Block, &[Token]), ReadFault>
    ensures { Reads result (λ read. (read.0, read.1.now)) (body_block_at (readers budget) span tokens.now) }
{
    let (items, value, rest) = read_contents(alloc, tokens, budget)?;
    let block = Block {
        span,
        spec: None,
        items,
        value,
    };
    Ok((block, rest))
}

//! Readers of clauses with one spec expression, after their words.

ghost use Rattle.parser_base.specs.ReadFault.{Reads};
ghost use Rattle.item_parser.specs.ClauseReading.{aborts_if_at, condition_at, ensures_at, invariant_at, let_at, requires_at};

use crate::spec::words::{skip_post, skip_update};
use base::span::Span;
use expression_parser::spec::expression::read_spec_expression;
use parser_base::fault::ReadFault;
use parser_base::signs::{expect_sign, read_identifier};
use std::alloc::Global;
use syntax_tree::clause::{AbortCode, Clause};
use syntax_tree::spec_expression::SpecExpression;
use tokens::token::{Punctuation, Token};

/// Reads a spec expression up to the end of its clause.
#[tactic(auto, unfolding(crate::specs::ClauseReading::condition_at))]
fn read_condition(
    alloc: Global,
    tokens: &[Token],
    budget: usize,
) -> Result<(SpecExpression, &[Token]), ReadFault>
    ensures { Reads result (λ read. (read.0, read.1.now)) (condition_at budget tokens.now) }
{
    let (condition, rest) = read_spec_expression(alloc, tokens, budget)?;
    let rest = expect_sign(rest, Punctuation::Semicolon)?;
    Ok((condition, rest))
}

/// Reads a `requires` after its word.
#[tactic(auto, unfolding(crate::specs::ClauseReading::requires_at))]
pub fn read_requires(
    alloc: Global,
    span: Span,
    tokens: &[Token],
    budget: usize,
) -> Result<(Clause, &[Token]), ReadFault>
    ensures { Reads result (λ read. (read.0, read.1.now)) (requires_at budget span tokens.now) }
{
    let (condition, rest) = read_condition(alloc, tokens, budget)?;
    Ok((Clause::Requires { span, condition }, rest))
}

/// Reads an `ensures` after its word.
#[tactic(auto, unfolding(crate::specs::ClauseReading::ensures_at))]
pub fn read_ensures(
    alloc: Global,
    span: Span,
    tokens: &[Token],
    budget: usize,
) -> Result<(Clause, &[Token]), ReadFault>
    ensures { Reads result (λ read. (read.0, read.1.now)) (ensures_at budget span tokens.now) }
{
    let (condition, rest) = read_condition(alloc, tokens, budget)?;
    Ok((Clause::Ensures { span, condition }, rest))
}

/// Reads an `aborts_if` after its word.
#[tactic(auto, unfolding(crate::specs::ClauseReading::aborts_if_at))]
pub fn read_aborts_if(
    alloc: Global,
    span: Span,
    tokens: &[Token],
    budget: usize,
) -> Result<(Clause, &[Token]), ReadFault>
    ensures { Reads result (λ read. (read.0, read.1.now)) (aborts_if_at budget span tokens.now) }
{
    let (condition, rest) = read_condition(alloc, tokens, budget)?;
    let code = AbortCode::Bare;
    Ok((
        Clause::AbortsIf {
            span,
            condition,
            code,
        },
        rest,
    ))
}

/// Reads an `invariant` after its word.
#[tactic(auto, unfolding(crate::specs::ClauseReading::invariant_at))]
pub fn read_invariant(
    alloc: Global,
    span: Span,
    tokens: &[Token],
    budget: usize,
) -> Result<(Clause, &[Token]), ReadFault>
    ensures { Reads result (λ read. (read.0, read.1.now)) (invariant_at budget span tokens.now) }
{
    let (is_update, rest) = skip_update(tokens);
    let (condition, rest) = read_condition(alloc, rest, budget)?;
    Ok((
        Clause::Invariant {
            span,
            is_update,
            condition,
        },
        rest,
    ))
}

/// Reads a `let` after its word.
#[tactic(auto, unfolding(crate::specs::ClauseReading::let_at))]
pub fn read_let(
    alloc: Global,
    span: Span,
    tokens: &[Token],
    budget: usize,
) -> Result<(Clause, &[Token]), ReadFault>
    ensures { Reads result (λ read. (read.0, read.1.now)) (let_at budget span tokens.now) }
{
    let (is_post, rest) = skip_post(tokens);
    let (name, rest) = read_identifier(alloc, rest)?;
    let rest = expect_sign(rest, Punctuation::Equal)?;
    let (value, rest) = read_condition(alloc, rest, budget)?;
    Ok((
        Clause::Let {
            span,
            is_post,
            name,
            value,
        },
        rest,
    ))
}

//! Readers of lists of expressions and of the fields of a pack.

ghost use Rattle.std.specs.Prelude.{length};
ghost use Rattle.parser_base.specs.ReadFault.{Reads};
ghost use Rattle.parser_base.specs.TokenReading.{after_sign};
ghost use Rattle.parser_base.specs.ListReading.{comma_list_at};
ghost use Rattle.expression_parser.specs.ExpressionReading.{any, field_value_at, readers};

use crate::expression::read_expression;
use parser_base::fault::ReadFault;
use parser_base::lists::{Separator, separator_behind};
use parser_base::signs::{read_identifier, skip_sign};
use std::alloc::Global;
use syntax_tree::expression::{Expression, FieldValue};
use tokens::token::{Punctuation, Token};

/// Reads any number of expressions up to the closing sign. Returns the expressions, whether a comma follows the last,
/// and the tokens after the sign.
#[cycle(expression)]
#[tactic(auto, unfolding(parser_base::specs::ListReading::comma_list_at))]
pub fn read_expressions(
    alloc: Global,
    close: Punctuation,
    tokens: &[Token],
    budget: usize,
) -> Result<(Vec<Expression>, bool, &[Token]), ReadFault>
    ensures { Reads result (λ read. ((read.0.items, read.1), read.2.now)) (comma_list_at (after_sign close) (any (readers budget)) tokens.now) }
{
    let mut items = Vec::new(alloc);
    if let Some(rest) = skip_sign(tokens, close) {
        return Ok((items, false, rest));
    }
    let mut rest = tokens;
    for _ in 0..tokens.len() {
        let (item, behind) = read_expression(alloc, 0, rest, budget)?;
        items.push(item)?;
        match separator_behind(behind, close)? {
            (Separator::Next, behind) => rest = behind,
            (Separator::End, behind) => return Ok((items, false, behind)),
            (Separator::EndBehindComma, behind) => return Ok((items, true, behind)),
        }
    }
    Err(ReadFault::NoTree { left: 0 })
}

/// Reads any number of fields of a pack after its brace. Returns the fields, whether a comma follows the last, and the
/// tokens after the closing brace.
#[cycle(expression)]
#[tactic(auto, unfolding(parser_base::specs::ListReading::comma_list_at))]
pub fn read_field_values(
    alloc: Global,
    tokens: &[Token],
    budget: usize,
) -> Result<(Vec<FieldValue>, bool, &[Token]), ReadFault>
    ensures { Reads result (λ read. ((read.0.items, read.1), read.2.now)) (comma_list_at (after_sign Punctuation.RightBrace) (field_value_at (any (readers budget))) tokens.now) }
{
    let mut items = Vec::new(alloc);
    if let Some(rest) = skip_sign(tokens, Punctuation::RightBrace) {
        return Ok((items, false, rest));
    }
    let mut rest = tokens;
    for _ in 0..tokens.len() {
        let (item, behind) = read_field_value(alloc, rest, budget)?;
        items.push(item)?;
        match separator_behind(behind, Punctuation::RightBrace)? {
            (Separator::Next, behind) => rest = behind,
            (Separator::End, behind) => return Ok((items, false, behind)),
            (Separator::EndBehindComma, behind) => return Ok((items, true, behind)),
        }
    }
    Err(ReadFault::NoTree { left: 0 })
}

/// Reads a field of a pack. Returns it and the remaining tokens.
#[cycle(expression)]
#[tactic(auto, unfolding(crate::specs::ExpressionReading::field_value_at))]
fn read_field_value(
    alloc: Global,
    tokens: &[Token],
    budget: usize,
) -> Result<(FieldValue, &[Token]), ReadFault>
    ensures { Reads result (λ read. (read.0, read.1.now)) (field_value_at (any (readers budget)) tokens.now) }
{
    let (name, rest) = read_identifier(alloc, tokens)?;
    match skip_sign(rest, Punctuation::Colon) {
        Some(behind) => {
            let (value, behind) = read_expression(alloc, 0, behind, budget)?;
            let field = FieldValue {
                name,
                value: Some(value),
            };
            Ok((field, behind))
        }
        None => Ok((FieldValue { name, value: None }, rest)),
    }
}

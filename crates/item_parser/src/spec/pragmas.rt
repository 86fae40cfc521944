//! Readers of pragmas, after their word.

ghost use Rattle.std.specs.Prelude.{◌≡◌, length, IfOk};
ghost use Rattle.std.specs.Option.{option_map};
ghost use Rattle.parser_base.specs.ReadFault.{Reads};
ghost use Rattle.parser_base.specs.TokenReading.{after_sign};
ghost use Rattle.parser_base.specs.ListReading.{some_items_at};
ghost use Rattle.item_parser.specs.ClauseReading.{pragma_at, pragmas_at, setting_at, value_at, value_of};

use base::memory::NoMemory;
use base::span::Span;
use parser_base::fault::ReadFault;
use parser_base::leaf::fitting_number_of;
use parser_base::lists::{Separator, separator_behind};
use parser_base::path::copy_number;
use parser_base::signs::{is_word, read_identifier, skip_sign};
use std::alloc::Global;
use syntax_tree::clause::{Clause, Pragma, PragmaValue, Pragmas};
use syntax_tree::lexeme::Numeral;
use tokens::token::{Punctuation, Token};

/// Returns the value of a pragma that a token is.
#[tactic(auto, unfolding(crate::specs::ClauseReading::value_of))]
fn copy_value(alloc: Global, token: &Token) -> Result<Option<PragmaValue>, NoMemory>
    ensures { IfOk result (λ value. value ≡ value_of token.now) }
{
    let span = token.span;
    if is_word(&token.kind, b"true") {
        return Ok(Some(PragmaValue::Truth { span, value: true }));
    }
    if is_word(&token.kind, b"false") {
        return Ok(Some(PragmaValue::Truth { span, value: false }));
    }
    match fitting_number_of(&token.kind) {
        Some(literal) => {
            let literal = copy_number(alloc, literal)?;
            Ok(Some(PragmaValue::Number(Numeral { literal, span })))
        }
        None => Ok(None),
    }
}

/// Reads the value of a pragma. Returns it and the remaining tokens.
#[tactic(auto, unfolding(crate::specs::ClauseReading::value_at))]
fn read_value(alloc: Global, tokens: &[Token]) -> Result<(PragmaValue, &[Token]), ReadFault>
    ensures { Reads result (λ read. (read.0, read.1.now)) (value_at tokens.now) }
{
    match tokens.split_first() {
        Some((token, rest)) => match copy_value(alloc, token)? {
            Some(value) => Ok((value, rest)),
            None => Err(ReadFault::NoTree { left: tokens.len() }),
        },
        None => Err(ReadFault::NoTree { left: 0 }),
    }
}

/// Reads the value of a pragma, if an `=` is here. Returns it and the remaining tokens.
#[tactic(auto, unfolding(crate::specs::ClauseReading::setting_at))]
fn read_setting(
    alloc: Global,
    tokens: &[Token],
) -> Result<(Option<PragmaValue>, &[Token]), ReadFault>
    ensures { Reads result (λ read. (read.0, read.1.now)) (setting_at tokens.now) }
{
    let Some(rest) = skip_sign(tokens, Punctuation::Equal) else {
        return Ok((None, tokens));
    };
    let (value, rest) = read_value(alloc, rest)?;
    Ok((Some(value), rest))
}

/// Reads a pragma. Returns it and the remaining tokens.
#[tactic(auto, unfolding(crate::specs::ClauseReading::pragma_at))]
fn read_pragma(alloc: Global, tokens: &[Token]) -> Result<(Pragma, &[Token]), ReadFault>
    ensures { Reads result (λ read. (read.0, read.1.now)) (pragma_at tokens.now) }
{
    let (name, rest) = read_identifier(alloc, tokens)?;
    let (value, rest) = read_setting(alloc, rest)?;
    Ok((Pragma { name, value }, rest))
}

/// Reads pragmas up to the end of their clause. Returns the pragmas, whether a comma follows the last, and the tokens
/// after the end.
fn read_pragma_list(
    alloc: Global,
    tokens: &[Token],
) -> Result<(Vec<Pragma>, bool, &[Token]), ReadFault>
    ensures { Reads result (λ read. ((read.0.items, read.1), read.2.now)) (some_items_at (after_sign Punctuation.Semicolon) pragma_at tokens.now) }
{
    let mut items = Vec::new(alloc);
    let mut rest = tokens;
    for _ in 0..tokens.len() {
        let (item, behind) = read_pragma(alloc, rest)?;
        items.push(item)?;
        match separator_behind(behind, Punctuation::Semicolon)? {
            (Separator::Next, behind) => rest = behind,
            (Separator::End, behind) => return Ok((items, false, behind)),
            (Separator::EndBehindComma, behind) => return Ok((items, true, behind)),
        }
    }
    Err(ReadFault::NoTree { left: 0 })
}

/// Reads a `pragma` after its word.
#[tactic(auto, unfolding(crate::specs::ClauseReading::pragmas_at))]
pub fn read_pragmas(
    alloc: Global,
    span: Span,
    tokens: &[Token],
) -> Result<(Clause, &[Token]), ReadFault>
    ensures { Reads result (λ read. (read.0, read.1.now)) (pragmas_at span tokens.now) }
{
    let (items, last_comma, rest) = read_pragma_list(alloc, tokens)?;
    let pragmas = Pragmas { items, last_comma };
    Ok((Clause::Pragma { span, pragmas }, rest))
}

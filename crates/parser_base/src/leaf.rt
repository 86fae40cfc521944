//! Readers of the tokens that begin terms, control forms and blocks.

ghost use Rattle.std.specs.Prelude.{◌≡◌, None, Some, codes, is_some, IfOk, MatchResult};
ghost use Rattle.std.specs.Option.{option_map};
ghost use Rattle.syntax_tree.specs.TypeTreeData.{maybe_arguments_of};
ghost use Rattle.parser_base.specs.ReadFault.{Reads};
ghost use Rattle.parser_base.specs.TokenReading.{after_word};
ghost use Rattle.parser_base.specs.TypeReading.{type_at};
ghost use Rattle.parser_base.specs.LeafReading.{after_glued, annotation_at, assert_span_at, behind_first_at, cast_target_at, glued_arguments_at, spec_statement_at, path_form_at, begins_by_keyword, begins_expression, begins_operand, borrow_behind, control_at, control_of, control_of_word, fitting_number_of, may_begin, number_at, plain_literal_at, prefix_at, spec_opening_at, truth_at, use_at, vector_span_at};

use crate::fault::ReadFault;
use crate::kept::read_loop_spec;
use crate::path::{copy_number, is_single, last_name};
use crate::signs::{
    begins_capital, begins_with, expect_sign, is_keyword, is_sign, skip_sign, skip_word,
    span_of_sign, span_of_word,
};
use crate::types::{read_arguments, read_type};
use base::memory::NoMemory;
use base::span::Span;
use std::alloc::Global;
use syntax_tree::lexeme::Numeral;
use syntax_tree::literal::Literal;
use syntax_tree::operator::{UnaryOperator, UseKind};
use syntax_tree::path::Path;
use syntax_tree::spec_tokens::KeptSpec;
use syntax_tree::types::{SourceType, TypeArguments};
use tokens::token::{NumberLiteral, NumberSuffix, Punctuation, Token, TokenKind};

/// The control forms, by their first words.
#[derive(Clone, Copy, Debug, PartialEq, Eq)]
pub enum Control {
    If,
    While,
    Loop,
    Return,
    Abort,
    Break,
    Continue,
}

/// Returns the number that a token is, if the profile has its type.
pub fn fitting_number_of(kind: &TokenKind) -> Option<&NumberLiteral>
    ensures { option_map (λ literal. literal.now) result ≡ fitting_number_of kind.now }
{
    match kind {
        TokenKind::Number(literal) => match literal.suffix {
            NumberSuffix::U256 => None,
            _ => Some(literal),
        },
        _ => None,
    }
}

/// Reads a number that is not the address of a path, if one is here. Returns it and the remaining tokens.
#[tactic(auto, unfolding(crate::specs::LeafReading::number_at))]
fn read_number(alloc: Global, tokens: &[Token]) -> Result<Option<(Literal, &[Token])>, NoMemory>
    ensures { IfOk result (λ read. option_map (λ r. (r.0, r.1.now)) read ≡ number_at tokens.now) }
{
    let Some((token, rest)) = tokens.split_first() else {
        return Ok(None);
    };
    if begins_with(rest, Punctuation::ColonColon) {
        return Ok(None);
    }
    match fitting_number_of(&token.kind) {
        Some(literal) => {
            let number = Numeral {
                literal: copy_number(alloc, literal)?,
                span: token.span,
            };
            Ok(Some((Literal::Number(number), rest)))
        }
        None => Ok(None),
    }
}

/// Reads a boolean, if one is here. Returns it and the remaining tokens.
#[tactic(auto, unfolding(crate::specs::LeafReading::truth_at))]
fn read_truth(tokens: &[Token]) -> Option<(Literal, &[Token])>
    ensures { option_map (λ r. (r.0, r.1.now)) result ≡ truth_at tokens.now }
{
    if let Some((span, rest)) = span_of_word(tokens, b"true") {
        return Some((Literal::Truth { span, value: true }, rest));
    }
    let (span, rest) = span_of_word(tokens, b"false")?;
    Some((Literal::Truth { span, value: false }, rest))
}

/// Reads a number or a boolean, if one is here. Returns it and the remaining tokens.
#[tactic(auto, unfolding(crate::specs::LeafReading::plain_literal_at))]
pub fn read_plain_literal(
    alloc: Global,
    tokens: &[Token],
) -> Result<Option<(Literal, &[Token])>, NoMemory>
    ensures { IfOk result (λ read. option_map (λ r. (r.0, r.1.now)) read ≡ plain_literal_at tokens.now) }
{
    match read_number(alloc, tokens)? {
        Some(read) => Ok(Some(read)),
        None => Ok(read_truth(tokens)),
    }
}

/// Reads the word `vector` if it begins a vector. Returns its span and the remaining tokens.
#[tactic(auto, unfolding(crate::specs::LeafReading::vector_span_at))]
pub fn span_of_vector(tokens: &[Token]) -> Option<(Span, &[Token])>
    ensures { option_map (λ r. (r.0, r.1.now)) result ≡ vector_span_at tokens.now }
{
    let (span, rest) = span_of_word(tokens, b"vector")?;
    if begins_with(rest, Punctuation::Less) || begins_with(rest, Punctuation::LeftBracket) {
        Some((span, rest))
    } else {
        None
    }
}

/// Reads the word `assert` and its `!`, if they are here. Returns the span of `assert` and the remaining tokens.
#[tactic(auto, unfolding(crate::specs::LeafReading::assert_span_at))]
pub fn span_of_assert(tokens: &[Token]) -> Option<(Span, &[Token])>
    ensures { option_map (λ r. (r.0, r.1.now)) result ≡ assert_span_at tokens.now }
{
    let (span, rest) = span_of_word(tokens, b"assert")?;
    let rest = skip_sign(rest, Punctuation::Exclaim)?;
    Some((span, rest))
}

/// Skips this sign, if it is here and glued to the token before it.
#[tactic(auto, unfolding(crate::specs::LeafReading::after_glued))]
pub fn skip_glued(tokens: &[Token], sign: Punctuation) -> Option<&[Token]>
    ensures { option_map (λ rest. rest.now) result ≡ after_glued sign tokens.now }
{
    let (token, rest) = tokens.split_first()?;
    if is_sign(&token.kind, sign) && token.glued {
        Some(rest)
    } else {
        None
    }
}

/// Reads the operator that begins with a `&` at this span. Returns the operator, its span and the remaining tokens.
#[tactic(auto, unfolding(crate::specs::LeafReading::borrow_behind))]
fn borrow_behind(span: Span, tokens: &[Token]) -> (UnaryOperator, Span, &[Token])
    ensures { Some ((result.0, result.1), result.2.now) ≡ borrow_behind span tokens.now }
{
    match skip_word(tokens, b"mut") {
        Some(rest) => (UnaryOperator::BorrowMutable, span, rest),
        None => (UnaryOperator::Borrow, span, tokens),
    }
}

/// Reads a unary operator. Returns the operator, its span and the remaining tokens.
#[tactic(auto, unfolding(crate::specs::LeafReading::prefix_at))]
pub fn read_prefix(tokens: &[Token]) -> Option<(UnaryOperator, Span, &[Token])>
    ensures { option_map (λ r. ((r.0, r.1), r.2.now)) result ≡ prefix_at tokens.now }
{
    if let Some((span, rest)) = span_of_sign(tokens, Punctuation::Exclaim) {
        return Some((UnaryOperator::Not, span, rest));
    }
    if let Some((span, rest)) = span_of_sign(tokens, Punctuation::Star) {
        return Some((UnaryOperator::Dereference, span, rest));
    }
    let (span, rest) = span_of_sign(tokens, Punctuation::Ampersand)?;
    Some(borrow_behind(span, rest))
}

/// Reads the word `move` or `copy`. Returns it, its span and the remaining tokens.
#[tactic(auto, unfolding(crate::specs::LeafReading::use_at))]
pub fn read_use(tokens: &[Token]) -> Option<(UseKind, Span, &[Token])>
    ensures { option_map (λ r. ((r.0, r.1), r.2.now)) result ≡ use_at tokens.now }
{
    if let Some((span, rest)) = span_of_word(tokens, b"move") {
        return Some((UseKind::Move, span, rest));
    }
    let (span, rest) = span_of_word(tokens, b"copy")?;
    Some((UseKind::Copy, span, rest))
}

/// Returns the control form that a word begins.
fn control_of_word(word: &[u8]) -> Option<Control>
    ensures { result ≡ control_of_word word.now }
{
    if word == b"if".as_slice() {
        Some(Control::If)
    } else if word == b"while".as_slice() {
        Some(Control::While)
    } else if word == b"loop".as_slice() {
        Some(Control::Loop)
    } else if word == b"return".as_slice() {
        Some(Control::Return)
    } else if word == b"abort".as_slice() {
        Some(Control::Abort)
    } else if word == b"break".as_slice() {
        Some(Control::Break)
    } else if word == b"continue".as_slice() {
        Some(Control::Continue)
    } else {
        None
    }
}

/// Returns the control form that a token begins.
fn control_of(kind: &TokenKind) -> Option<Control>
    ensures { result ≡ control_of kind.now }
{
    match kind {
        TokenKind::Word(word) => control_of_word(word.as_slice()),
        _ => None,
    }
}

/// Reads the word that begins a control form. Returns the form, the span of the word and the remaining tokens.
#[tactic(auto, unfolding(crate::specs::LeafReading::control_at))]
pub fn read_control_word(tokens: &[Token]) -> Option<(Control, Span, &[Token])>
    ensures { option_map (λ r. ((r.0, r.1), r.2.now)) result ≡ control_at tokens.now }
{
    let (token, rest) = tokens.split_first()?;
    let control = control_of(&token.kind)?;
    Some((control, token.span, rest))
}

/// Decides whether an expression can begin with this sign.
fn begins_operand(sign: Punctuation) -> bool
    ensures { result ≡ begins_operand sign }
{
    matches!(
        sign,
        Punctuation::LeftParenthesis
            | Punctuation::LeftBrace
            | Punctuation::Exclaim
            | Punctuation::Star
            | Punctuation::Ampersand
            | Punctuation::AtSign
    )
}

/// Decides whether the word is a keyword that begins an expression.
fn begins_by_keyword(word: &[u8]) -> bool
    ensures { result ≡ begins_by_keyword word.now }
{
    word == b"true".as_slice()
        || word == b"false".as_slice()
        || word == b"move".as_slice()
        || word == b"copy".as_slice()
        || control_of_word(word).is_some()
}

/// Decides whether an expression can begin with this token.
fn begins_expression(kind: &TokenKind) -> bool
    ensures { result ≡ begins_expression kind.now }
{
    match kind {
        TokenKind::Word(word) => {
            begins_by_keyword(word.as_slice()) || !is_keyword(word.as_slice())
        }
        TokenKind::Number(_) => true,
        TokenKind::ByteString(_) => false,
        TokenKind::Punctuation(sign) => begins_operand(*sign),
    }
}

/// Decides whether an expression can begin here.
#[tactic(auto, unfolding(crate::specs::LeafReading::may_begin))]
pub fn may_begin(tokens: &[Token]) -> bool
    ensures { result ≡ may_begin tokens.now }
{
    match tokens.first() {
        Some(token) => begins_expression(&token.kind),
        None => false,
    }
}

/// Skips `else`, if it is here. It belongs to the innermost `if` before it that has none.
pub fn skip_else(tokens: &[Token]) -> Option<&[Token]>
    ensures { option_map (λ rest. rest.now) result ≡ after_word (codes "else") tokens.now }
{
    skip_word(tokens, b"else")
}

/// Reads the brace before the spec block of a loop, if both are here. Returns the span of the brace and the tokens from
/// the word `spec` on.
#[tactic(auto, unfolding(crate::specs::LeafReading::spec_opening_at))]
pub fn read_spec_opening(tokens: &[Token]) -> Option<(Span, &[Token])>
    ensures { option_map (λ r. (r.0, r.1.now)) result ≡ spec_opening_at tokens.now }
{
    let (span, rest) = span_of_sign(tokens, Punctuation::LeftBrace)?;
    if skip_word(rest, b"spec").is_some() {
        Some((span, rest))
    } else {
        None
    }
}

/// The form of a term that begins with a path.
#[derive(Clone, Copy, Debug, PartialEq, Eq)]
pub enum PathForm {
    Call,
    Pack,
    /// The path only.
    Alone,
}

/// Reads the form of a term that begins with a path. Returns it and the tokens after the bracket that determines it.
/// `has_arguments` tells whether type arguments follow the path.
#[tactic(auto, unfolding(crate::specs::LeafReading::path_form_at))]
pub fn read_path_form<'a>(
    has_arguments: bool,
    path: &Path,
    tokens: &'a [Token],
) -> Result<(PathForm, &'a [Token]), ReadFault>
    ensures { MatchResult result (λ read. path_form_at has_arguments path.now tokens.now ≡ Some (read.0, read.1.now)) (λ fault. path_form_at has_arguments path.now tokens.now ≡ None) }
{
    if let Some(rest) = skip_sign(tokens, Punctuation::LeftParenthesis) {
        if has_arguments && is_single(path, b"vector") {
            return Err(ReadFault::NoTree { left: tokens.len() });
        }
        return Ok((PathForm::Call, rest));
    }
    if begins_capital(last_name(path)) {
        if let Some(rest) = skip_sign(tokens, Punctuation::LeftBrace) {
            return Ok((PathForm::Pack, rest));
        }
    }
    if has_arguments {
        Err(ReadFault::NoTree { left: tokens.len() })
    } else {
        Ok((PathForm::Alone, tokens))
    }
}

/// Reads type arguments, if a glued `<` is here. Returns them and the remaining tokens.
#[tactic(auto, unfolding(crate::specs::LeafReading::glued_arguments_at))]
pub fn read_glued_arguments(
    alloc: Global,
    tokens: &[Token],
    budget: usize,
) -> Result<(Option<TypeArguments>, &[Token]), ReadFault>
    ensures { Reads result (λ read. (maybe_arguments_of read.0, read.1.now)) (glued_arguments_at (type_at budget) tokens.now) }
{
    match skip_glued(tokens, Punctuation::Less) {
        Some(inside) => {
            let (arguments, rest) = read_arguments(alloc, inside, budget)?;
            Ok((Some(arguments), rest))
        }
        None => Ok((None, tokens)),
    }
}

/// What follows the first expression in parentheses.
#[derive(Clone, Copy, Debug, PartialEq, Eq)]
pub enum BehindFirst {
    /// The closing parenthesis.
    Close,
    /// The word `as`.
    As,
    Comma,
}

/// Reads what follows the first expression in parentheses. Returns it and the remaining tokens.
#[tactic(auto, unfolding(crate::specs::LeafReading::behind_first_at))]
pub fn read_behind_first(tokens: &[Token]) -> Result<(BehindFirst, &[Token]), ReadFault>
    ensures { MatchResult result (λ read. behind_first_at tokens.now ≡ Some (read.0, read.1.now)) (λ fault. behind_first_at tokens.now ≡ None) }
{
    if let Some(rest) = skip_sign(tokens, Punctuation::RightParenthesis) {
        return Ok((BehindFirst::Close, rest));
    }
    if let Some(rest) = skip_word(tokens, b"as") {
        return Ok((BehindFirst::As, rest));
    }
    let rest = expect_sign(tokens, Punctuation::Comma)?;
    Ok((BehindFirst::Comma, rest))
}

/// Reads the spec block of a loop from its word on, with its semicolon. Returns the block and the remaining tokens.
#[tactic(auto, unfolding(crate::specs::LeafReading::spec_statement_at))]
pub fn read_spec_statement(
    alloc: Global,
    tokens: &[Token],
) -> Result<(KeptSpec, &[Token]), ReadFault>
    ensures { Reads result (λ read. (read.0, read.1.now)) (spec_statement_at tokens.now) }
{
    let (spec, rest) = read_loop_spec(alloc, tokens)?;
    let rest = expect_sign(rest, Punctuation::Semicolon)?;
    Ok((spec, rest))
}

/// Reads the type after a colon, if a colon is here. Returns the type and the remaining tokens.
#[tactic(auto, unfolding(crate::specs::LeafReading::annotation_at))]
pub fn read_annotation(
    alloc: Global,
    tokens: &[Token],
    budget: usize,
) -> Result<(Option<SourceType>, &[Token]), ReadFault>
    ensures { Reads result (λ read. (read.0, read.1.now)) (annotation_at (type_at budget) tokens.now) }
{
    match skip_sign(tokens, Punctuation::Colon) {
        Some(rest) => {
            let (annotation, rest) = read_type(alloc, rest, budget)?;
            Ok((Some(annotation), rest))
        }
        None => Ok((None, tokens)),
    }
}

/// Reads the type of a cast after `as`, with the closing parenthesis. Returns the type and the remaining tokens.
#[tactic(auto, unfolding(crate::specs::LeafReading::cast_target_at))]
pub fn read_cast_target(
    alloc: Global,
    tokens: &[Token],
    budget: usize,
) -> Result<(SourceType, &[Token]), ReadFault>
    ensures { Reads result (λ read. (read.0, read.1.now)) (cast_target_at (type_at budget) tokens.now) }
{
    let (target, rest) = read_type(alloc, tokens, budget)?;
    let rest = expect_sign(rest, Punctuation::RightParenthesis)?;
    Ok((target, rest))
}

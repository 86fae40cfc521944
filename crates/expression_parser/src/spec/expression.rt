//! Readers of spec expressions.

ghost use Rattle.std.specs.Prelude.{[], true, false, length};
ghost use Rattle.syntax_tree.specs.TypeTreeData.{maybe_arguments_of};
ghost use Rattle.parser_base.specs.ReadFault.{Reads};
ghost use Rattle.parser_base.specs.TokenReading.{after_sign};
ghost use Rattle.parser_base.specs.ListReading.{comma_list_at, some_items_at};
ghost use Rattle.parser_base.specs.TypeReading.{type_at};
ghost use Rattle.expression_parser.specs.RepeatReading.{whole_repeat_at};
ghost use Rattle.expression_parser.specs.LeafReading.{has_postfix};
ghost use Rattle.expression_parser.specs.SpecReading.{applied_at, bare_path, bind_at, binds_at, call_at, condition_at, has_trigger, if_at, operand_at, operated_at, pack_at, path_form, plain_term_at, postfix_at, quantified_at, spec_at, spec_field_at, spec_form, term_at, trigger_at};

use crate::spec::build::{
    conditional, field_of, item_of, joined, negated, parenthesized, quantified,
};
use crate::spec::leaf::{
    has_postfix, pack_opened, read_address_literal, read_quantifier, separator_of_binds,
};
use crate::spec::operator::next_operator;
use base::span::Span;
use parser_base::fault::ReadFault;
use parser_base::leaf::{read_plain_literal, skip_glued};
use parser_base::lists::{Separator, separator_behind};
use parser_base::path::read_path_of_term;
use parser_base::signs::{
    expect_sign, expect_word, read_identifier, skip_sign, span_of_sign, span_of_word,
};
use parser_base::types::{read_arguments, read_type};
use std::alloc::Global;
use syntax_tree::path::Path;
use syntax_tree::spec_expression::level::right_level;
use syntax_tree::spec_expression::operator::Quantifier;
use syntax_tree::spec_expression::{Bind, Domain, SpecExpression, SpecField, SpecNode, Trigger};
use syntax_tree::types::TypeArguments;
use tokens::token::{Punctuation, Token};

/// The level of the operand of a `!`.
const UNARY_LEVEL: usize = 13;

/// Reads a spec expression. `budget` bounds its nesting. Returns it and the remaining tokens.
///
/// # Errors
///
/// `NoTree` if the tokens begin with no spec expression of at most this nesting, `NoMemory` if memory runs out.
pub fn read_spec_expression(
    alloc: Global,
    tokens: &[Token],
    budget: usize,
) -> Result<(SpecExpression, &[Token]), ReadFault>
    ensures { Reads result (λ read. (read.0, read.1.now)) (spec_at budget true 0 tokens.now) }
{
    let (tree, rest) = read_spec(alloc, true, 0, tokens, budget)?;
    Ok((Box::into_inner(tree), rest))
}

/// Reads a spec expression of level at least `minimum` that is nested at most `budget` deep. `packs` says whether a
/// pack may occur outside its brackets.
#[cycle(read_spec)]
#[tactic(auto, unfolding(crate::specs::SpecReading::spec_at))]
fn read_spec(
    alloc: Global,
    packs: bool,
    minimum: usize,
    tokens: &[Token],
    budget: usize,
) -> Result<(Box<SpecExpression>, &[Token]), ReadFault>
    ensures { Reads result (λ read. (read.0.value, read.1.now)) (spec_at budget packs minimum tokens.now) }
{
    if budget == 0 {
        return Err(ReadFault::NoTree { left: tokens.len() });
    }
    read_spec_form(alloc, packs, minimum, tokens, budget - 1)
}

/// Reads a spec expression with inner expressions nested at most `budget` deep.
#[cycle(read_spec)]
#[tactic(auto, unfolding(crate::specs::SpecReading::spec_form, crate::specs::SpecReading::loose_at))]
fn read_spec_form(
    alloc: Global,
    packs: bool,
    minimum: usize,
    tokens: &[Token],
    budget: usize,
) -> Result<(Box<SpecExpression>, &[Token]), ReadFault>
    ensures { Reads result (λ read. (read.0.value, read.1.now)) (spec_form (type_at budget) (spec_at budget) packs minimum tokens.now) }
{
    if minimum == 0 {
        if let Some((quantifier, span, rest)) = read_quantifier(tokens) {
            return read_quantified(alloc, quantifier, span, packs, rest, budget);
        }
        if let Some((span, rest)) = span_of_word(tokens, b"if") {
            return read_if(alloc, span, packs, rest, budget);
        }
    }
    read_operated(alloc, packs, minimum, tokens, budget)
}

/// Reads a condition in its parentheses.
#[cycle(read_spec)]
#[tactic(auto, unfolding(crate::specs::SpecReading::condition_at))]
fn read_condition(
    alloc: Global,
    tokens: &[Token],
    budget: usize,
) -> Result<(Box<SpecExpression>, &[Token]), ReadFault>
    ensures { Reads result (λ read. (read.0.value, read.1.now)) (condition_at (spec_at budget true 0) tokens.now) }
{
    let rest = expect_sign(tokens, Punctuation::LeftParenthesis)?;
    let (condition, rest) = read_spec(alloc, true, 0, rest, budget)?;
    let rest = expect_sign(rest, Punctuation::RightParenthesis)?;
    Ok((condition, rest))
}

/// Reads an `if` after its word.
#[cycle(read_spec)]
#[tactic(auto, unfolding(crate::specs::SpecReading::if_at))]
fn read_if(
    alloc: Global,
    span: Span,
    packs: bool,
    tokens: &[Token],
    budget: usize,
) -> Result<(Box<SpecExpression>, &[Token]), ReadFault>
    ensures { Reads result (λ read. (read.0.value, read.1.now)) (if_at (spec_at budget) packs span tokens.now) }
{
    let (condition, rest) = read_condition(alloc, tokens, budget)?;
    let (then_branch, rest) = read_spec(alloc, packs, 0, rest, budget)?;
    let rest = expect_word(rest, b"else")?;
    let (else_branch, rest) = read_spec(alloc, packs, 0, rest, budget)?;
    let whole = conditional(alloc, span, condition, then_branch, else_branch)?;
    Ok((whole, rest))
}

/// Reads a quantified expression after its word.
#[cycle(read_spec)]
#[tactic(auto, unfolding(crate::specs::SpecReading::quantified_at))]
fn read_quantified(
    alloc: Global,
    quantifier: Quantifier,
    span: Span,
    packs: bool,
    tokens: &[Token],
    budget: usize,
) -> Result<(Box<SpecExpression>, &[Token]), ReadFault>
    ensures { Reads result (λ read. (read.0.value, read.1.now)) (quantified_at (type_at budget) (spec_at budget) packs quantifier span tokens.now) }
{
    let (binds, rest) = read_binds(alloc, tokens, budget)?;
    let (triggers, rest) = read_triggers(alloc, rest, budget)?;
    let rest = expect_sign(rest, Punctuation::Colon)?;
    let (body, rest) = read_spec(alloc, packs, 0, rest, budget)?;
    let whole = quantified(alloc, quantifier, span, binds, triggers, body)?;
    Ok((whole, rest))
}

/// Reads binds separated by commas, without a trailing comma.
#[cycle(read_spec)]
fn read_binds(
    alloc: Global,
    tokens: &[Token],
    budget: usize,
) -> Result<(Vec<Bind>, &[Token]), ReadFault>
    ensures { Reads result (λ read. (read.0.items, read.1.now)) (binds_at (type_at budget) (spec_at budget false 0) tokens.now) }
{
    let mut binds = Vec::new(alloc);
    let mut rest = tokens;
    for _ in 0..tokens.len() {
        let (bind, behind) = read_bind(alloc, rest, budget)?;
        binds.push(bind)?;
        match separator_of_binds(behind)? {
            (Separator::Next, behind) => rest = behind,
            (Separator::End, behind) => return Ok((binds, behind)),
            (Separator::EndBehindComma, behind) => {
                return Err(ReadFault::NoTree { left: behind.len() });
            }
        }
    }
    Err(ReadFault::NoTree { left: 0 })
}

/// Reads a quantified variable and its domain.
#[cycle(read_spec)]
#[tactic(auto, unfolding(crate::specs::SpecReading::bind_at))]
fn read_bind(alloc: Global, tokens: &[Token], budget: usize) -> Result<(Bind, &[Token]), ReadFault>
    ensures { Reads result (λ read. (read.0, read.1.now)) (bind_at (type_at budget) (spec_at budget false 0) tokens.now) }
{
    let (name, rest) = read_identifier(alloc, tokens)?;
    if let Some(rest) = skip_sign(rest, Punctuation::Colon) {
        let (annotation, rest) = read_type(alloc, rest, budget)?;
        let domain = Domain::Of(annotation);
        return Ok((Bind { name, domain }, rest));
    }
    let rest = expect_word(rest, b"in")?;
    let (range, rest) = read_spec(alloc, false, 0, rest, budget)?;
    let domain = Domain::In(Box::into_inner(range));
    Ok((Bind { name, domain }, rest))
}

/// Reads any number of triggers.
#[cycle(read_spec)]
fn read_triggers(
    alloc: Global,
    tokens: &[Token],
    budget: usize,
) -> Result<(Vec<Trigger>, &[Token]), ReadFault>
    ensures { Reads result (λ read. (read.0.items, read.1.now)) (whole_repeat_at has_trigger (trigger_at (spec_at budget true 0)) [] tokens.now) }
{
    let mut triggers = Vec::new(alloc);
    let mut rest = tokens;
    for _ in 0..tokens.len() + 1 {
        let Some(inside) = skip_sign(rest, Punctuation::LeftBrace) else {
            return Ok((triggers, rest));
        };
        let (items, last_comma, behind) = read_specs(
            alloc,
            Punctuation::RightBrace,
            inside,
            budget,
        )?;
        triggers.push(Trigger { items, last_comma })?;
        rest = behind;
    }
    Err(ReadFault::NoTree { left: 0 })
}

/// Reads operands joined by operators.
#[cycle(read_spec)]
fn read_operated(
    alloc: Global,
    packs: bool,
    minimum: usize,
    tokens: &[Token],
    budget: usize,
) -> Result<(Box<SpecExpression>, &[Token]), ReadFault>
    ensures { Reads result (λ read. (read.0.value, read.1.now)) (operated_at (type_at budget) (spec_at budget) packs minimum tokens.now) }
{
    let (first, behind) = read_operand(alloc, packs, tokens, budget)?;
    let mut whole = first;
    let mut rest = behind;
    for _ in 0..behind.len() + 1 {
        let Some((operator, span, inside)) = next_operator(&whole, minimum, rest) else {
            return Ok((whole, rest));
        };
        let (right, after) = read_spec(alloc, packs, right_level(operator), inside, budget)?;
        whole = joined(alloc, whole, operator, span, right)?;
        rest = after;
    }
    Err(ReadFault::NoTree { left: 0 })
}

/// Reads an operand: a term with its fields and indices, or an operand after a `!`.
#[cycle(read_spec)]
#[tactic(auto, unfolding(crate::specs::SpecReading::operand_at))]
fn read_operand(
    alloc: Global,
    packs: bool,
    tokens: &[Token],
    budget: usize,
) -> Result<(Box<SpecExpression>, &[Token]), ReadFault>
    ensures { Reads result (λ read. (read.0.value, read.1.now)) (operand_at (type_at budget) (spec_at budget) packs tokens.now) }
{
    if let Some((span, rest)) = span_of_sign(tokens, Punctuation::Exclaim) {
        let (operand, rest) = read_spec(alloc, packs, UNARY_LEVEL, rest, budget)?;
        return Ok((negated(alloc, span, operand)?, rest));
    }
    let (base, rest) = read_term(alloc, packs, tokens, budget)?;
    read_postfixes(alloc, base, rest, budget)
}

/// Reads the fields and indices after a term.
#[cycle(read_spec)]
fn read_postfixes(
    alloc: Global,
    base: Box<SpecExpression>,
    tokens: &[Token],
    budget: usize,
) -> Result<(Box<SpecExpression>, &[Token]), ReadFault>
    ensures { Reads result (λ read. (read.0.value, read.1.now)) (whole_repeat_at has_postfix (postfix_at (spec_at budget true 0)) base.value tokens.now) }
{
    let mut whole = base;
    let mut rest = tokens;
    for _ in 0..tokens.len() + 1 {
        if !has_postfix(rest) {
            return Ok((whole, rest));
        }
        let (longer, behind) = read_postfix(alloc, whole, rest, budget)?;
        whole = longer;
        rest = behind;
    }
    Err(ReadFault::NoTree { left: 0 })
}

/// Reads one field or index after a term.
#[cycle(read_spec)]
#[tactic(auto, unfolding(crate::specs::SpecReading::postfix_at, crate::specs::SpecReading::index_at))]
fn read_postfix(
    alloc: Global,
    base: Box<SpecExpression>,
    tokens: &[Token],
    budget: usize,
) -> Result<(Box<SpecExpression>, &[Token]), ReadFault>
    ensures { Reads result (λ read. (read.0.value, read.1.now)) (postfix_at (spec_at budget true 0) base.value tokens.now) }
{
    if let Some(rest) = skip_sign(tokens, Punctuation::Period) {
        let (field, rest) = read_identifier(alloc, rest)?;
        return Ok((field_of(alloc, base, field)?, rest));
    }
    let rest = expect_sign(tokens, Punctuation::LeftBracket)?;
    let (index, rest) = read_spec(alloc, true, 0, rest, budget)?;
    let rest = expect_sign(rest, Punctuation::RightBracket)?;
    Ok((item_of(alloc, base, index)?, rest))
}

/// Reads a term.
#[cycle(read_spec)]
#[tactic(auto, unfolding(crate::specs::SpecReading::term_at, crate::specs::SpecReading::parenthesized_at))]
fn read_term(
    alloc: Global,
    packs: bool,
    tokens: &[Token],
    budget: usize,
) -> Result<(Box<SpecExpression>, &[Token]), ReadFault>
    ensures { Reads result (λ read. (read.0.value, read.1.now)) (term_at (type_at budget) (spec_at budget true 0) packs tokens.now) }
{
    if let Some((span, rest)) = span_of_sign(tokens, Punctuation::LeftParenthesis) {
        let (inner, rest) = read_spec(alloc, true, 0, rest, budget)?;
        let rest = expect_sign(rest, Punctuation::RightParenthesis)?;
        return Ok((parenthesized(alloc, span, inner)?, rest));
    }
    if let Some((span, rest)) = span_of_sign(tokens, Punctuation::AtSign) {
        let (literal, rest) = read_address_literal(alloc, span, rest)?;
        let node = SpecNode::Literal(literal);
        return Ok((Box::new(alloc, SpecExpression { node })?, rest));
    }
    read_plain_term(alloc, packs, tokens, budget)
}

/// Reads a number, a boolean, or a term that begins with a path.
#[cycle(read_spec)]
#[tactic(auto, unfolding(crate::specs::SpecReading::plain_term_at))]
fn read_plain_term(
    alloc: Global,
    packs: bool,
    tokens: &[Token],
    budget: usize,
) -> Result<(Box<SpecExpression>, &[Token]), ReadFault>
    ensures { Reads result (λ read. (read.0.value, read.1.now)) (plain_term_at (type_at budget) (spec_at budget true 0) packs tokens.now) }
{
    if let Some((literal, rest)) = read_plain_literal(alloc, tokens)? {
        let node = SpecNode::Literal(literal);
        return Ok((Box::new(alloc, SpecExpression { node })?, rest));
    }
    let (path, rest) = read_path_of_term(alloc, tokens)?;
    read_path_form(alloc, packs, path, rest, budget)
}

/// Reads what follows a path. A glued `<` opens type arguments.
#[cycle(read_spec)]
#[tactic(auto, unfolding(crate::specs::SpecReading::path_form))]
fn read_path_form(
    alloc: Global,
    packs: bool,
    path: Path,
    tokens: &[Token],
    budget: usize,
) -> Result<(Box<SpecExpression>, &[Token]), ReadFault>
    ensures { Reads result (λ read. (read.0.value, read.1.now)) (path_form (type_at budget) (spec_at budget true 0) packs path tokens.now) }
{
    match skip_glued(tokens, Punctuation::Less) {
        Some(inside) => {
            let (arguments, rest) = read_arguments(alloc, inside, budget)?;
            read_applied(alloc, packs, path, Some(arguments), rest, budget)
        }
        None => read_applied(alloc, packs, path, None, tokens, budget),
    }
}

/// Reads what follows a path and its type arguments.
#[cycle(read_spec)]
#[tactic(auto, unfolding(crate::specs::SpecReading::applied_at))]
fn read_applied(
    alloc: Global,
    packs: bool,
    path: Path,
    arguments: Option<TypeArguments>,
    tokens: &[Token],
    budget: usize,
) -> Result<(Box<SpecExpression>, &[Token]), ReadFault>
    ensures { Reads result (λ read. (read.0.value, read.1.now)) (applied_at (spec_at budget true 0) packs path (maybe_arguments_of arguments) tokens.now) }
{
    if let Some(rest) = skip_sign(tokens, Punctuation::LeftParenthesis) {
        return read_call(alloc, path, arguments, rest, budget);
    }
    if let Some(rest) = pack_opened(packs, &path, tokens) {
        return read_pack(alloc, path, arguments, rest, budget);
    }
    bare_path(alloc, path, arguments, tokens)
}

/// Reads the values of a call after its parenthesis.
#[cycle(read_spec)]
#[tactic(auto, unfolding(crate::specs::SpecReading::call_at, parser_base::specs::ListReading::comma_list_at))]
fn read_call(
    alloc: Global,
    path: Path,
    arguments: Option<TypeArguments>,
    tokens: &[Token],
    budget: usize,
) -> Result<(Box<SpecExpression>, &[Token]), ReadFault>
    ensures { Reads result (λ read. (read.0.value, read.1.now)) (call_at (spec_at budget true 0) path (maybe_arguments_of arguments) tokens.now) }
{
    let (values, last_comma, rest) = read_values(alloc, tokens, budget)?;
    let node = SpecNode::Call {
        function: path,
        arguments,
        values,
        last_comma,
    };
    Ok((Box::new(alloc, SpecExpression { node })?, rest))
}

/// Returns the term that is a path alone, which has no type arguments.
fn bare_path(
    alloc: Global,
    path: Path,
    arguments: Option<TypeArguments>,
    tokens: &[Token],
) -> Result<(Box<SpecExpression>, &[Token]), ReadFault>
    ensures { Reads result (λ read. (read.0.value, read.1.now)) (bare_path path (maybe_arguments_of arguments) tokens.now) }
{
    match arguments {
        Some(_) => Err(ReadFault::NoTree { left: tokens.len() }),
        None => {
            let node = SpecNode::Path(path);
            Ok((Box::new(alloc, SpecExpression { node })?, tokens))
        }
    }
}

/// Reads any number of values up to a parenthesis. Returns the values, whether a comma follows the last, and the tokens
/// after the parenthesis.
#[cycle(read_spec)]
#[tactic(auto, unfolding(parser_base::specs::ListReading::comma_list_at))]
fn read_values(
    alloc: Global,
    tokens: &[Token],
    budget: usize,
) -> Result<(Vec<SpecExpression>, bool, &[Token]), ReadFault>
    ensures { Reads result (λ read. ((read.0.items, read.1), read.2.now)) (comma_list_at (after_sign Punctuation.RightParenthesis) (spec_at budget true 0) tokens.now) }
{
    match skip_sign(tokens, Punctuation::RightParenthesis) {
        Some(rest) => Ok((Vec::new(alloc), false, rest)),
        None => read_specs(alloc, Punctuation::RightParenthesis, tokens, budget),
    }
}

/// Reads the fields of a pack after its brace.
#[cycle(read_spec)]
#[tactic(auto, unfolding(crate::specs::SpecReading::pack_at))]
fn read_pack(
    alloc: Global,
    path: Path,
    arguments: Option<TypeArguments>,
    tokens: &[Token],
    budget: usize,
) -> Result<(Box<SpecExpression>, &[Token]), ReadFault>
    ensures { Reads result (λ read. (read.0.value, read.1.now)) (pack_at (spec_at budget true 0) path (maybe_arguments_of arguments) tokens.now) }
{
    let (fields, last_comma, rest) = read_spec_fields(alloc, tokens, budget)?;
    let node = SpecNode::Pack {
        path,
        arguments,
        fields,
        last_comma,
    };
    Ok((Box::new(alloc, SpecExpression { node })?, rest))
}

/// Reads one or more spec expressions up to the closing sign, each nested at most `budget` deep. Returns the
/// expressions, whether a comma follows the last, and the tokens after the sign.
#[cycle(read_spec)]
pub fn read_specs(
    alloc: Global,
    close: Punctuation,
    tokens: &[Token],
    budget: usize,
) -> Result<(Vec<SpecExpression>, bool, &[Token]), ReadFault>
    ensures { Reads result (λ read. ((read.0.items, read.1), read.2.now)) (some_items_at (after_sign close) (spec_at budget true 0) tokens.now) }
{
    let mut items = Vec::new(alloc);
    let mut rest = tokens;
    for _ in 0..tokens.len() {
        let (item, behind) = read_spec(alloc, true, 0, rest, budget)?;
        items.push(Box::into_inner(item))?;
        match separator_behind(behind, close)? {
            (Separator::Next, behind) => rest = behind,
            (Separator::End, behind) => return Ok((items, false, behind)),
            (Separator::EndBehindComma, behind) => return Ok((items, true, behind)),
        }
    }
    Err(ReadFault::NoTree { left: 0 })
}

/// Reads any number of fields with their values after a brace. Returns the fields, whether a comma follows the last,
/// and the tokens after the closing brace.
#[cycle(read_spec)]
#[tactic(auto, unfolding(parser_base::specs::ListReading::comma_list_at))]
pub fn read_spec_fields(
    alloc: Global,
    tokens: &[Token],
    budget: usize,
) -> Result<(Vec<SpecField>, bool, &[Token]), ReadFault>
    ensures { Reads result (λ read. ((read.0.items, read.1), read.2.now)) (comma_list_at (after_sign Punctuation.RightBrace) (spec_field_at (spec_at budget true 0)) tokens.now) }
{
    match skip_sign(tokens, Punctuation::RightBrace) {
        Some(rest) => Ok((Vec::new(alloc), false, rest)),
        None => read_some_fields(alloc, tokens, budget),
    }
}

/// Reads one or more fields with their values after a brace.
#[cycle(read_spec)]
fn read_some_fields(
    alloc: Global,
    tokens: &[Token],
    budget: usize,
) -> Result<(Vec<SpecField>, bool, &[Token]), ReadFault>
    ensures { Reads result (λ read. ((read.0.items, read.1), read.2.now)) (some_items_at (after_sign Punctuation.RightBrace) (spec_field_at (spec_at budget true 0)) tokens.now) }
{
    let mut items = Vec::new(alloc);
    let mut rest = tokens;
    for _ in 0..tokens.len() {
        let (item, behind) = read_spec_field(alloc, rest, budget)?;
        items.push(item)?;
        match separator_behind(behind, Punctuation::RightBrace)? {
            (Separator::Next, behind) => rest = behind,
            (Separator::End, behind) => return Ok((items, false, behind)),
            (Separator::EndBehindComma, behind) => return Ok((items, true, behind)),
        }
    }
    Err(ReadFault::NoTree { left: 0 })
}

/// Reads a field and its value.
#[cycle(read_spec)]
#[tactic(auto, unfolding(crate::specs::SpecReading::spec_field_at))]
fn read_spec_field(
    alloc: Global,
    tokens: &[Token],
    budget: usize,
) -> Result<(SpecField, &[Token]), ReadFault>
    ensures { Reads result (λ read. (read.0, read.1.now)) (spec_field_at (spec_at budget true 0) tokens.now) }
{
    let (name, rest) = read_identifier(alloc, tokens)?;
    match skip_sign(rest, Punctuation::Colon) {
        Some(behind) => {
            let (value, behind) = read_spec(alloc, true, 0, behind, budget)?;
            let field = SpecField {
                name,
                value: Some(Box::into_inner(value)),
            };
            Ok((field, behind))
        }
        None => Ok((SpecField { name, value: None }, rest)),
    }
}

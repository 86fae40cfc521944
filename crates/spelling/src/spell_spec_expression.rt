//! Writers of spec expressions.

ghost use Rattle.std.specs.Prelude.{◌≡◌, [], ◌∷◌, ◌++◌, None, Some, OnOk};
ghost use Rattle.std.specs.List.{flat_map};
ghost use Rattle.tokens.specs.declared.token.Punctuation.TheVariants.{LeftParenthesis, RightParenthesis};
ghost use Rattle.syntax_tree.specs.Lexemes.{sign, comma_list};
ghost use Rattle.syntax_tree.specs.SpecExpressionData.{spec_expressions_of, binds_of, triggers_of, spec_fields_of};
ghost use Rattle.syntax_tree.specs.SpecExpressionSpelling.{ends_in_path, spec_spelling, bind_spelling, trigger_spelling, spec_field_spelling, spec_spellings, bind_spellings, triggers_spelling, spec_field_spellings, spec_after_comma, bind_after_comma, spec_field_after_comma};

use crate::spell_literal::spell_literal;
use crate::spell_path::{spell_identifier, spell_path};
use crate::spell_spec_operator::{spell_quantifier, spell_spec_operator};
use crate::spell_type::{spell_maybe_arguments, spell_type};
use base::memory::NoMemory;
use std::alloc::Global;
use syntax_tree::lexeme::Lexemes;
use syntax_tree::spec_expression::ending::is_path_last;
use syntax_tree::spec_expression::{Bind, Domain, SpecExpression, SpecField, SpecNode, Trigger};
use tokens::token::Punctuation;

/// Appends the tokens of a spec expression.
#[cycle(spell_spec)]
pub fn spell_spec_expression(
    alloc: Global,
    expression: &SpecExpression,
    into: &mut Lexemes,
) -> Result<(), NoMemory>
    ensures { OnOk result (into.new ≡ into.old ++ spec_spelling expression.now) }
{
    match &expression.node {
        SpecNode::Binary {
            left,
            operator,
            span,
            right,
        } => {
            spell_spec_expression(alloc, left, into)?;
            spell_spec_operator(*operator, *span, is_path_last(left), into)?;
            spell_spec_expression(alloc, right, into)
        }
        SpecNode::Quantified {
            quantifier,
            span,
            binds,
            triggers,
            body,
        } => {
            spell_quantifier(alloc, *quantifier, *span, into)?;
            spell_binds(alloc, binds, false, into)?;
            spell_triggers(alloc, triggers, into)?;
            into.push_sign(Punctuation::Colon)?;
            spell_spec_expression(alloc, body, into)
        }
        SpecNode::If {
            span,
            condition,
            then_branch,
            else_branch,
        } => {
            into.push_word(alloc, b"if", Some(*span))?;
            spell_condition(alloc, condition, into)?;
            spell_spec_expression(alloc, then_branch, into)?;
            into.push_word(alloc, b"else", None)?;
            spell_spec_expression(alloc, else_branch, into)
        }
        SpecNode::Not { span, operand } => {
            into.push_sign_at(*span, Punctuation::Exclaim)?;
            spell_spec_expression(alloc, operand, into)
        }
        SpecNode::Field { base, field } => {
            spell_spec_expression(alloc, base, into)?;
            into.push_sign(Punctuation::Period)?;
            spell_identifier(alloc, field, into)
        }
        SpecNode::Index { base, index } => {
            spell_spec_expression(alloc, base, into)?;
            into.push_sign(Punctuation::LeftBracket)?;
            spell_spec_expression(alloc, index, into)?;
            into.push_sign(Punctuation::RightBracket)
        }
        SpecNode::Literal(literal) => spell_literal(alloc, literal, into),
        SpecNode::Path(path) => spell_path(alloc, path, into),
        SpecNode::Call {
            function,
            arguments,
            values,
            last_comma,
        } => {
            spell_path(alloc, function, into)?;
            spell_maybe_arguments(alloc, Some(true), arguments, into)?;
            into.push_sign(Punctuation::LeftParenthesis)?;
            spell_spec_expressions(alloc, values, *last_comma, into)?;
            into.push_sign(Punctuation::RightParenthesis)
        }
        SpecNode::Pack {
            path,
            arguments,
            fields,
            last_comma,
        } => {
            spell_path(alloc, path, into)?;
            spell_maybe_arguments(alloc, Some(true), arguments, into)?;
            into.push_sign(Punctuation::LeftBrace)?;
            spell_spec_fields(alloc, fields, *last_comma, into)?;
            into.push_sign(Punctuation::RightBrace)
        }
        SpecNode::Parenthesized { span, inner } => {
            into.push_sign_at(*span, Punctuation::LeftParenthesis)?;
            spell_spec_expression(alloc, inner, into)?;
            into.push_sign(Punctuation::RightParenthesis)
        }
    }
}

#[cycle(spell_spec)]
fn spell_condition(
    alloc: Global,
    condition: &SpecExpression,
    into: &mut Lexemes,
) -> Result<(), NoMemory>
    ensures { OnOk result (into.new ≡ into.old ++ sign LeftParenthesis ∷ spec_spelling condition.now ++ sign RightParenthesis ∷ []) }
{
    into.push_sign(Punctuation::LeftParenthesis)?;
    spell_spec_expression(alloc, condition, into)?;
    into.push_sign(Punctuation::RightParenthesis)
}

#[cycle(spell_spec)]
fn spell_bind(alloc: Global, bind: &Bind, into: &mut Lexemes) -> Result<(), NoMemory>
    ensures { OnOk result (into.new ≡ into.old ++ bind_spelling bind.now) }
{
    spell_identifier(alloc, &bind.name, into)?;
    match &bind.domain {
        Domain::Of(annotation) => {
            into.push_sign(Punctuation::Colon)?;
            spell_type(alloc, annotation, into)
        }
        Domain::In(range) => {
            into.push_word(alloc, b"in", None)?;
            spell_spec_expression(alloc, range, into)
        }
    }
}

#[cycle(spell_spec)]
fn spell_trigger(alloc: Global, trigger: &Trigger, into: &mut Lexemes) -> Result<(), NoMemory>
    ensures { OnOk result (into.new ≡ into.old ++ trigger_spelling trigger.now) }
{
    into.push_sign(Punctuation::LeftBrace)?;
    spell_spec_expressions(alloc, &trigger.items, trigger.last_comma, into)?;
    into.push_sign(Punctuation::RightBrace)
}

#[cycle(spell_spec)]
#[tactic(auto, using(syntax_tree::proofs::SmallerSpecs::trigger_smaller))]
fn spell_triggers(alloc: Global, triggers: &[Trigger], into: &mut Lexemes) -> Result<(), NoMemory>
    ensures { OnOk result (into.new ≡ into.old ++ triggers_spelling (triggers_of triggers.now)) }
{
    for one in triggers {
        spell_trigger(alloc, one, into)?;
    }
    Ok(())
}

#[cycle(spell_spec)]
fn spell_spec_field(alloc: Global, field: &SpecField, into: &mut Lexemes) -> Result<(), NoMemory>
    ensures { OnOk result (into.new ≡ into.old ++ spec_field_spelling field.now) }
{
    spell_identifier(alloc, &field.name, into)?;
    match &field.value {
        None => Ok(()),
        Some(value) => {
            into.push_sign(Punctuation::Colon)?;
            spell_spec_expression(alloc, value, into)
        }
    }
}

/// Appends the tokens of spec expressions separated by commas.
#[cycle(spell_spec)]
pub fn spell_spec_expressions(
    alloc: Global,
    expressions: &[SpecExpression],
    last_comma: bool,
    into: &mut Lexemes,
) -> Result<(), NoMemory>
    ensures { OnOk result (into.new ≡ into.old ++ comma_list (spec_spellings (spec_expressions_of expressions.now)) last_comma) }
{
    let Some((first, rest)) = expressions.split_first() else {
        return into.push_last_comma(last_comma);
    };
    spell_spec_expression(alloc, first, into)?;
    spell_more_spec_expressions(alloc, rest, into)?;
    into.push_last_comma(last_comma)?;
    Ok(())
}

#[cycle(spell_spec)]
#[tactic(auto, using(syntax_tree::proofs::SmallerSpecs::spec_expression_smaller))]
fn spell_more_spec_expressions(
    alloc: Global,
    expressions: &[SpecExpression],
    into: &mut Lexemes,
) -> Result<(), NoMemory>
    ensures { OnOk result (into.new ≡ into.old ++ flat_map spec_after_comma expressions.now) }
{
    for one in expressions {
        into.push_sign(Punctuation::Comma)?;
        spell_spec_expression(alloc, one, into)?;
    }
    Ok(())
}

#[cycle(spell_spec)]
fn spell_binds(
    alloc: Global,
    binds: &[Bind],
    last_comma: bool,
    into: &mut Lexemes,
) -> Result<(), NoMemory>
    ensures { OnOk result (into.new ≡ into.old ++ comma_list (bind_spellings (binds_of binds.now)) last_comma) }
{
    let Some((first, rest)) = binds.split_first() else {
        return into.push_last_comma(last_comma);
    };
    spell_bind(alloc, first, into)?;
    spell_more_binds(alloc, rest, into)?;
    into.push_last_comma(last_comma)?;
    Ok(())
}

#[cycle(spell_spec)]
#[tactic(auto, using(syntax_tree::proofs::SmallerSpecs::bind_smaller))]
fn spell_more_binds(alloc: Global, binds: &[Bind], into: &mut Lexemes) -> Result<(), NoMemory>
    ensures { OnOk result (into.new ≡ into.old ++ flat_map bind_after_comma binds.now) }
{
    for one in binds {
        into.push_sign(Punctuation::Comma)?;
        spell_bind(alloc, one, into)?;
    }
    Ok(())
}

/// Appends the tokens of fields with their values, separated by commas.
#[cycle(spell_spec)]
pub fn spell_spec_fields(
    alloc: Global,
    fields: &[SpecField],
    last_comma: bool,
    into: &mut Lexemes,
) -> Result<(), NoMemory>
    ensures { OnOk result (into.new ≡ into.old ++ comma_list (spec_field_spellings (spec_fields_of fields.now)) last_comma) }
{
    let Some((first, rest)) = fields.split_first() else {
        return into.push_last_comma(last_comma);
    };
    spell_spec_field(alloc, first, into)?;
    spell_more_spec_fields(alloc, rest, into)?;
    into.push_last_comma(last_comma)?;
    Ok(())
}

#[cycle(spell_spec)]
#[tactic(auto, using(syntax_tree::proofs::SmallerSpecs::spec_field_smaller))]
fn spell_more_spec_fields(
    alloc: Global,
    fields: &[SpecField],
    into: &mut Lexemes,
) -> Result<(), NoMemory>
    ensures { OnOk result (into.new ≡ into.old ++ flat_map spec_field_after_comma fields.now) }
{
    for one in fields {
        into.push_sign(Punctuation::Comma)?;
        spell_spec_field(alloc, one, into)?;
    }
    Ok(())
}

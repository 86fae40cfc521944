//! Writers of patterns.

ghost use Rattle.std.specs.Prelude.{◌≡◌, [], ◌∷◌, ◌++◌, None, OnOk, IfOk};
ghost use Rattle.std.specs.List.{flat_map};
ghost use Rattle.syntax_tree.specs.Lexemes.{comma_list};
ghost use Rattle.syntax_tree.specs.PatternData.{patterns_of, field_patterns_of};
ghost use Rattle.syntax_tree.specs.PatternSpelling.{pattern_spelling, field_pattern_spelling, pattern_spellings, field_pattern_spellings, pattern_after_comma, field_pattern_after_comma};

use crate::spell_path::{spell_identifier, spell_path};
use crate::spell_type::spell_maybe_arguments;
use base::memory::NoMemory;
use std::alloc::Global;
use syntax_tree::lexeme::Lexemes;
use syntax_tree::pattern::{FieldPattern, Pattern, PatternNode};
use tokens::token::Punctuation;

/// Appends the tokens of a pattern.
#[cycle(spell_pattern)]
pub fn spell_pattern(alloc: Global, pattern: &Pattern, into: &mut Lexemes) -> Result<(), NoMemory>
    ensures { OnOk result (into.new ≡ into.old ++ pattern_spelling pattern.now) }
{
    match &pattern.node {
        PatternNode::Bind(name) => spell_identifier(alloc, name, into),
        PatternNode::Ignore(span) => into.push_word(alloc, b"_", Some(*span)),
        PatternNode::Unpack {
            path,
            arguments,
            fields,
            last_comma,
        } => {
            spell_path(alloc, path, into)?;
            spell_maybe_arguments(alloc, None, arguments, into)?;
            into.push_sign(Punctuation::LeftBrace)?;
            spell_field_patterns(alloc, fields, *last_comma, into)?;
            into.push_sign(Punctuation::RightBrace)
        }
        PatternNode::Tuple {
            span,
            items,
            last_comma,
        } => {
            into.push_sign_at(*span, Punctuation::LeftParenthesis)?;
            spell_patterns(alloc, items, *last_comma, into)?;
            into.push_sign(Punctuation::RightParenthesis)
        }
    }
}

#[cycle(spell_pattern)]
fn spell_field_pattern(
    alloc: Global,
    field: &FieldPattern,
    into: &mut Lexemes,
) -> Result<(), NoMemory>
    ensures { OnOk result (into.new ≡ into.old ++ field_pattern_spelling field.now) }
{
    spell_identifier(alloc, &field.name, into)?;
    match &field.pattern {
        None => Ok(()),
        Some(pattern) => {
            into.push_sign(Punctuation::Colon)?;
            spell_pattern(alloc, pattern, into)
        }
    }
}

#[cycle(spell_pattern)]
fn spell_patterns(
    alloc: Global,
    patterns: &[Pattern],
    last_comma: bool,
    into: &mut Lexemes,
) -> Result<(), NoMemory>
    ensures { OnOk result (into.new ≡ into.old ++ comma_list (pattern_spellings (patterns_of patterns.now)) last_comma) }
{
    let Some((first, rest)) = patterns.split_first() else {
        return into.push_last_comma(last_comma);
    };
    spell_pattern(alloc, first, into)?;
    spell_more_patterns(alloc, rest, into)?;
    into.push_last_comma(last_comma)?;
    Ok(())
}

#[cycle(spell_pattern)]
#[tactic(auto, using(syntax_tree::proofs::Smaller::pattern_smaller))]
fn spell_more_patterns(
    alloc: Global,
    patterns: &[Pattern],
    into: &mut Lexemes,
) -> Result<(), NoMemory>
    ensures { OnOk result (into.new ≡ into.old ++ flat_map pattern_after_comma patterns.now) }
{
    for one in patterns {
        into.push_sign(Punctuation::Comma)?;
        spell_pattern(alloc, one, into)?;
    }
    Ok(())
}

#[cycle(spell_pattern)]
fn spell_field_patterns(
    alloc: Global,
    fields: &[FieldPattern],
    last_comma: bool,
    into: &mut Lexemes,
) -> Result<(), NoMemory>
    ensures { OnOk result (into.new ≡ into.old ++ comma_list (field_pattern_spellings (field_patterns_of fields.now)) last_comma) }
{
    let Some((first, rest)) = fields.split_first() else {
        return into.push_last_comma(last_comma);
    };
    spell_field_pattern(alloc, first, into)?;
    spell_more_fields(alloc, rest, into)?;
    into.push_last_comma(last_comma)?;
    Ok(())
}

#[cycle(spell_pattern)]
#[tactic(auto, using(syntax_tree::proofs::Smaller::field_pattern_smaller))]
fn spell_more_fields(
    alloc: Global,
    fields: &[FieldPattern],
    into: &mut Lexemes,
) -> Result<(), NoMemory>
    ensures { OnOk result (into.new ≡ into.old ++ flat_map field_pattern_after_comma fields.now) }
{
    for one in fields {
        into.push_sign(Punctuation::Comma)?;
        spell_field_pattern(alloc, one, into)?;
    }
    Ok(())
}

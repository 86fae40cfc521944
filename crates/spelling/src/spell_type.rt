//! Writers of types.

ghost use Rattle.std.specs.Prelude.{◌≡◌, [], ◌∷◌, ◌++◌, None, OnOk, IfOk};
ghost use Rattle.std.specs.List.{flat_map};
ghost use Rattle.syntax_tree.specs.Lexemes.{comma_list};
ghost use Rattle.syntax_tree.specs.TypeTreeData.{source_types_of, maybe_arguments_of};
ghost use Rattle.syntax_tree.specs.TypeSpelling.{type_spelling, type_spellings, arguments_spelling, maybe_arguments_spelling, type_after_comma};

use crate::spell_path::spell_path;
use base::memory::NoMemory;
use std::alloc::Global;
use syntax_tree::lexeme::Lexemes;
use syntax_tree::types::{SourceType, SourceTypeNode, TypeArguments};
use tokens::token::Punctuation;

/// Appends the tokens of a type.
#[cycle(spell_type)]
pub fn spell_type(
    alloc: Global,
    source_type: &SourceType,
    into: &mut Lexemes,
) -> Result<(), NoMemory>
    ensures { OnOk result (into.new ≡ into.old ++ type_spelling source_type.now) }
{
    match &source_type.node {
        SourceTypeNode::Shared { span, target } => {
            into.push_sign_at(*span, Punctuation::Ampersand)?;
            spell_type(alloc, target, into)
        }
        SourceTypeNode::Mutable { span, target } => {
            into.push_sign_at(*span, Punctuation::Ampersand)?;
            into.push_word(alloc, b"mut", None)?;
            spell_type(alloc, target, into)
        }
        SourceTypeNode::Named { path, arguments } => {
            spell_path(alloc, path, into)?;
            spell_maybe_arguments(alloc, None, arguments, into)
        }
        SourceTypeNode::Tuple {
            span,
            items,
            last_comma,
        } => {
            into.push_sign_at(*span, Punctuation::LeftParenthesis)?;
            spell_types(alloc, items, *last_comma, into)?;
            into.push_sign(Punctuation::RightParenthesis)
        }
    }
}

/// Appends the tokens of type arguments, if there are any. `glued` says whether their `<` must be glued.
#[cycle(spell_type)]
pub fn spell_maybe_arguments(
    alloc: Global,
    glued: Option<bool>,
    arguments: &Option<TypeArguments>,
    into: &mut Lexemes,
) -> Result<(), NoMemory>
    ensures { OnOk result (into.new ≡ into.old ++ maybe_arguments_spelling glued (maybe_arguments_of arguments.now)) }
{
    match arguments {
        None => Ok(()),
        Some(arguments) => spell_arguments(alloc, glued, arguments, into),
    }
}

/// Appends the tokens of type arguments.
#[cycle(spell_type)]
pub fn spell_arguments(
    alloc: Global,
    glued: Option<bool>,
    arguments: &TypeArguments,
    into: &mut Lexemes,
) -> Result<(), NoMemory>
    ensures { OnOk result (into.new ≡ into.old ++ arguments_spelling glued arguments.now) }
{
    into.push_sign_glued(glued, Punctuation::Less)?;
    spell_types(alloc, &arguments.items, arguments.last_comma, into)?;
    into.push_sign(Punctuation::Greater)
}

#[cycle(spell_type)]
#[tactic(auto, using(crate::proofs::PatternCommas::types_comma_list))]
fn spell_types(
    alloc: Global,
    types: &[SourceType],
    last_comma: bool,
    into: &mut Lexemes,
) -> Result<(), NoMemory>
    ensures { OnOk result (into.new ≡ into.old ++ comma_list (type_spellings (source_types_of types.now)) last_comma) }
{
    let Some((first, rest)) = types.split_first() else {
        return into.push_last_comma(last_comma);
    };
    spell_type(alloc, first, into)?;
    spell_more_types(alloc, rest, into)?;
    into.push_last_comma(last_comma)?;
    Ok(())
}

#[cycle(spell_type)]
#[tactic(auto, using(syntax_tree::proofs::Smaller::source_type_smaller))]
fn spell_more_types(alloc: Global, types: &[SourceType], into: &mut Lexemes) -> Result<(), NoMemory>
    ensures { OnOk result (into.new ≡ into.old ++ flat_map type_after_comma types.now) }
{
    for one in types {
        into.push_sign(Punctuation::Comma)?;
        spell_type(alloc, one, into)?;
    }
    Ok(())
}

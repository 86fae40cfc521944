//! Writers of files, modules and their members.

ghost use Rattle.std.specs.Prelude.{◌≡◌, [], ◌∷◌, ◌++◌, None, Some, OnOk, IfOk, map};
ghost use Rattle.std.specs.List.{flat_map};
ghost use Rattle.syntax_tree.specs.Lexemes.{comma_list};
ghost use Rattle.syntax_tree.specs.PathSpelling.{path_spelling};
ghost use Rattle.syntax_tree.specs.MemberSpelling.{attribute_spelling, alias_spelling, import_spelling, imported_spelling, use_member_spelling, friend_spelling, ability_spelling, abilities_spelling, more_ability_spelling, constraint_spelling, phantom_spelling, parameter_spelling, parameters_spelling, typed_name_spelling, typed_names_spelling, struct_spelling, constant_spelling, visibility_spelling, entry_spelling, of_friends, acquires_word, acquires_spelling, function_name_spelling, inputs_spelling, function_spelling, form_spelling, member_spelling, module_tree_spelling, file_spelling};
ghost use Rattle.spelling.specs.MemberAfterCommas.{import_after_comma, ability_after_comma, parameter_after_comma, typed_name_after_comma, path_after_comma};

use crate::spell_expression::{spell_annotation, spell_block, spell_expression};
use crate::spell_path::{spell_identifier, spell_module_name, spell_path};
use crate::spell_tokens::{spell_kept_spec, spell_tokens};
use crate::spell_type::spell_type;
use base::memory::NoMemory;
use base::span::Span;
use std::alloc::Global;
use syntax_tree::lexeme::{Identifier, Lexemes};
use syntax_tree::member::{
    Abilities, Ability, Attribute, Constant, File, Friend, Function, Import, Imported, Imports,
    Member, MemberForm, Module, Paths, Struct, TypeParameter, TypeParameters, TypedName,
    TypedNames, Use, Visibility,
};
use syntax_tree::path::Path;
use tokens::token::Punctuation;

fn spell_attribute(alloc: Global, attribute: &Attribute, into: &mut Lexemes) -> Result<(), NoMemory>
    ensures { OnOk result (into.new ≡ into.old ++ attribute_spelling attribute.now) }
{
    into.push_sign_at(attribute.span, Punctuation::NumberSign)?;
    into.push_sign(Punctuation::LeftBracket)?;
    spell_tokens(alloc, attribute.tokens.as_slice(), into)?;
    into.push_sign(Punctuation::RightBracket)
}

fn spell_attributes(
    alloc: Global,
    attributes: &[Attribute],
    into: &mut Lexemes,
) -> Result<(), NoMemory>
    ensures { OnOk result (into.new ≡ into.old ++ flat_map attribute_spelling attributes.now) }
{
    for one in attributes {
        spell_attribute(alloc, one, into)?;
    }
    Ok(())
}

fn spell_alias(
    alloc: Global,
    alias: &Option<Identifier>,
    into: &mut Lexemes,
) -> Result<(), NoMemory>
    ensures { OnOk result (into.new ≡ into.old ++ alias_spelling alias.now) }
{
    match alias {
        None => Ok(()),
        Some(name) => {
            into.push_word(alloc, b"as", None)?;
            spell_identifier(alloc, name, into)
        }
    }
}

fn spell_import(alloc: Global, import: &Import, into: &mut Lexemes) -> Result<(), NoMemory>
    ensures { OnOk result (into.new ≡ into.old ++ import_spelling import.now) }
{
    spell_identifier(alloc, &import.name, into)?;
    spell_alias(alloc, &import.alias, into)
}

fn spell_imports(
    alloc: Global,
    imports: &[Import],
    last_comma: bool,
    into: &mut Lexemes,
) -> Result<(), NoMemory>
    ensures { OnOk result (into.new ≡ into.old ++ comma_list (map import_spelling imports.now) last_comma) }
{
    let Some((first, rest)) = imports.split_first() else {
        return into.push_last_comma(last_comma);
    };
    spell_import(alloc, first, into)?;
    spell_more_imports(alloc, rest, into)?;
    into.push_last_comma(last_comma)?;
    Ok(())
}

fn spell_more_imports(alloc: Global, imports: &[Import], into: &mut Lexemes) -> Result<(), NoMemory>
    ensures { OnOk result (into.new ≡ into.old ++ flat_map import_after_comma imports.now) }
{
    for one in imports {
        into.push_sign(Punctuation::Comma)?;
        spell_import(alloc, one, into)?;
    }
    Ok(())
}

fn spell_imported(alloc: Global, imported: &Imported, into: &mut Lexemes) -> Result<(), NoMemory>
    ensures { OnOk result (into.new ≡ into.old ++ imported_spelling imported.now) }
{
    match imported {
        Imported::Module(alias) => spell_alias(alloc, alias, into),
        Imported::One(import) => {
            into.push_sign(Punctuation::ColonColon)?;
            spell_import(alloc, import, into)
        }
        Imported::Several(imports) => {
            into.push_sign(Punctuation::ColonColon)?;
            into.push_sign(Punctuation::LeftBrace)?;
            spell_imports(alloc, &imports.items, imports.last_comma, into)?;
            into.push_sign(Punctuation::RightBrace)
        }
    }
}

fn spell_use_member(alloc: Global, used: &Use, into: &mut Lexemes) -> Result<(), NoMemory>
    ensures { OnOk result (into.new ≡ into.old ++ use_member_spelling used.now) }
{
    into.push_word(alloc, b"use", Some(used.span))?;
    spell_module_name(alloc, &used.owner, into)?;
    spell_imported(alloc, &used.imported, into)?;
    into.push_sign(Punctuation::Semicolon)
}

fn spell_friend(alloc: Global, friend: &Friend, into: &mut Lexemes) -> Result<(), NoMemory>
    ensures { OnOk result (into.new ≡ into.old ++ friend_spelling friend.now) }
{
    into.push_word(alloc, b"friend", Some(friend.span))?;
    spell_module_name(alloc, &friend.owner, into)?;
    into.push_sign(Punctuation::Semicolon)
}

fn spell_ability(alloc: Global, ability: Ability, into: &mut Lexemes) -> Result<(), NoMemory>
    ensures { OnOk result (into.new ≡ into.old ++ ability_spelling ability) }
{
    match ability {
        Ability::Copy => into.push_word(alloc, b"copy", None),
        Ability::Drop => into.push_word(alloc, b"drop", None),
        Ability::Store => into.push_word(alloc, b"store", None),
        Ability::Key => into.push_word(alloc, b"key", None),
    }
}

fn spell_ability_list(
    alloc: Global,
    abilities: &[Ability],
    last_comma: bool,
    into: &mut Lexemes,
) -> Result<(), NoMemory>
    ensures { OnOk result (into.new ≡ into.old ++ comma_list (map ability_spelling abilities.now) last_comma) }
{
    let Some((first, rest)) = abilities.split_first() else {
        return into.push_last_comma(last_comma);
    };
    spell_ability(alloc, *first, into)?;
    spell_more_ability_list(alloc, rest, into)?;
    into.push_last_comma(last_comma)?;
    Ok(())
}

fn spell_more_ability_list(
    alloc: Global,
    abilities: &[Ability],
    into: &mut Lexemes,
) -> Result<(), NoMemory>
    ensures { OnOk result (into.new ≡ into.old ++ flat_map ability_after_comma abilities.now) }
{
    for one in abilities {
        into.push_sign(Punctuation::Comma)?;
        spell_ability(alloc, *one, into)?;
    }
    Ok(())
}

fn spell_abilities(
    alloc: Global,
    abilities: &Option<Abilities>,
    into: &mut Lexemes,
) -> Result<(), NoMemory>
    ensures { OnOk result (into.new ≡ into.old ++ abilities_spelling abilities.now) }
{
    match abilities {
        None => Ok(()),
        Some(abilities) => {
            into.push_word(alloc, b"has", None)?;
            spell_ability_list(alloc, &abilities.items, abilities.last_comma, into)
        }
    }
}

fn spell_added_abilities(
    alloc: Global,
    abilities: &[Ability],
    into: &mut Lexemes,
) -> Result<(), NoMemory>
    ensures { OnOk result (into.new ≡ into.old ++ flat_map more_ability_spelling abilities.now) }
{
    for one in abilities {
        into.push_sign(Punctuation::Plus)?;
        spell_ability(alloc, *one, into)?;
    }
    Ok(())
}

fn spell_constraint(
    alloc: Global,
    abilities: &[Ability],
    into: &mut Lexemes,
) -> Result<(), NoMemory>
    ensures { OnOk result (into.new ≡ into.old ++ constraint_spelling abilities.now) }
{
    let Some((first, rest)) = abilities.split_first() else {
        return Ok(());
    };
    into.push_sign(Punctuation::Colon)?;
    spell_ability(alloc, *first, into)?;
    spell_added_abilities(alloc, rest, into)
}

fn spell_phantom(alloc: Global, is_phantom: bool, into: &mut Lexemes) -> Result<(), NoMemory>
    ensures { OnOk result (into.new ≡ into.old ++ phantom_spelling is_phantom) }
{
    if is_phantom {
        into.push_word(alloc, b"phantom", None)?;
    }
    Ok(())
}

fn spell_parameter(
    alloc: Global,
    parameter: &TypeParameter,
    into: &mut Lexemes,
) -> Result<(), NoMemory>
    ensures { OnOk result (into.new ≡ into.old ++ parameter_spelling parameter.now) }
{
    spell_phantom(alloc, parameter.is_phantom, into)?;
    spell_identifier(alloc, &parameter.name, into)?;
    spell_constraint(alloc, &parameter.abilities, into)
}

fn spell_parameter_list(
    alloc: Global,
    parameters: &[TypeParameter],
    last_comma: bool,
    into: &mut Lexemes,
) -> Result<(), NoMemory>
    ensures { OnOk result (into.new ≡ into.old ++ comma_list (map parameter_spelling parameters.now) last_comma) }
{
    let Some((first, rest)) = parameters.split_first() else {
        return into.push_last_comma(last_comma);
    };
    spell_parameter(alloc, first, into)?;
    spell_more_parameter_list(alloc, rest, into)?;
    into.push_last_comma(last_comma)?;
    Ok(())
}

fn spell_more_parameter_list(
    alloc: Global,
    parameters: &[TypeParameter],
    into: &mut Lexemes,
) -> Result<(), NoMemory>
    ensures { OnOk result (into.new ≡ into.old ++ flat_map parameter_after_comma parameters.now) }
{
    for one in parameters {
        into.push_sign(Punctuation::Comma)?;
        spell_parameter(alloc, one, into)?;
    }
    Ok(())
}

/// Appends the tokens of the type parameters of a declaration.
pub fn spell_parameters(
    alloc: Global,
    parameters: &Option<TypeParameters>,
    into: &mut Lexemes,
) -> Result<(), NoMemory>
    ensures { OnOk result (into.new ≡ into.old ++ parameters_spelling parameters.now) }
{
    match parameters {
        None => Ok(()),
        Some(parameters) => {
            into.push_sign(Punctuation::Less)?;
            spell_parameter_list(alloc, &parameters.items, parameters.last_comma, into)?;
            into.push_sign(Punctuation::Greater)
        }
    }
}

/// Appends the tokens of a name with its type.
pub fn spell_typed_name(alloc: Global, name: &TypedName, into: &mut Lexemes) -> Result<(), NoMemory>
    ensures { OnOk result (into.new ≡ into.old ++ typed_name_spelling name.now) }
{
    spell_identifier(alloc, &name.name, into)?;
    into.push_sign(Punctuation::Colon)?;
    spell_type(alloc, &name.annotation, into)
}

fn spell_typed_name_list(
    alloc: Global,
    names: &[TypedName],
    last_comma: bool,
    into: &mut Lexemes,
) -> Result<(), NoMemory>
    ensures { OnOk result (into.new ≡ into.old ++ comma_list (map typed_name_spelling names.now) last_comma) }
{
    let Some((first, rest)) = names.split_first() else {
        return into.push_last_comma(last_comma);
    };
    spell_typed_name(alloc, first, into)?;
    spell_more_typed_name_list(alloc, rest, into)?;
    into.push_last_comma(last_comma)?;
    Ok(())
}

fn spell_more_typed_name_list(
    alloc: Global,
    names: &[TypedName],
    into: &mut Lexemes,
) -> Result<(), NoMemory>
    ensures { OnOk result (into.new ≡ into.old ++ flat_map typed_name_after_comma names.now) }
{
    for one in names {
        into.push_sign(Punctuation::Comma)?;
        spell_typed_name(alloc, one, into)?;
    }
    Ok(())
}

fn spell_typed_names(alloc: Global, names: &TypedNames, into: &mut Lexemes) -> Result<(), NoMemory>
    ensures { OnOk result (into.new ≡ into.old ++ typed_names_spelling names.now) }
{
    spell_typed_name_list(alloc, &names.items, names.last_comma, into)
}

fn spell_struct(alloc: Global, declared: &Struct, into: &mut Lexemes) -> Result<(), NoMemory>
    ensures { OnOk result (into.new ≡ into.old ++ struct_spelling declared.now) }
{
    into.push_word(alloc, b"struct", Some(declared.span))?;
    spell_identifier(alloc, &declared.name, into)?;
    spell_parameters(alloc, &declared.parameters, into)?;
    spell_abilities(alloc, &declared.abilities, into)?;
    into.push_sign(Punctuation::LeftBrace)?;
    spell_typed_names(alloc, &declared.fields, into)?;
    into.push_sign(Punctuation::RightBrace)
}

fn spell_constant(alloc: Global, constant: &Constant, into: &mut Lexemes) -> Result<(), NoMemory>
    ensures { OnOk result (into.new ≡ into.old ++ constant_spelling constant.now) }
{
    into.push_word(alloc, b"const", Some(constant.span))?;
    spell_identifier(alloc, &constant.name, into)?;
    into.push_sign(Punctuation::Colon)?;
    spell_type(alloc, &constant.annotation, into)?;
    into.push_sign(Punctuation::Equal)?;
    spell_expression(alloc, &constant.value, into)?;
    into.push_sign(Punctuation::Semicolon)
}

#[tactic(auto, unfolding(syntax_tree::specs::MemberSpelling::of_friends))]
fn spell_of_friends(alloc: Global, into: &mut Lexemes) -> Result<(), NoMemory>
    ensures { OnOk result (into.new ≡ into.old ++ of_friends) }
{
    into.push_sign(Punctuation::LeftParenthesis)?;
    into.push_word(alloc, b"friend", None)?;
    into.push_sign(Punctuation::RightParenthesis)
}

fn spell_visibility(
    alloc: Global,
    visibility: Visibility,
    into: &mut Lexemes,
) -> Result<(), NoMemory>
    ensures { OnOk result (into.new ≡ into.old ++ visibility_spelling visibility) }
{
    match visibility {
        Visibility::Module => Ok(()),
        Visibility::Public(span) => into.push_word(alloc, b"public", Some(span)),
        Visibility::Friends(span) => {
            into.push_word(alloc, b"public", Some(span))?;
            spell_of_friends(alloc, into)
        }
    }
}

fn spell_entry(alloc: Global, entry: Option<Span>, into: &mut Lexemes) -> Result<(), NoMemory>
    ensures { OnOk result (into.new ≡ into.old ++ entry_spelling entry) }
{
    match entry {
        None => Ok(()),
        Some(span) => into.push_word(alloc, b"entry", Some(span)),
    }
}

#[tactic(auto, unfolding(syntax_tree::specs::MemberSpelling::acquires_word))]
fn spell_acquires_word(alloc: Global, into: &mut Lexemes) -> Result<(), NoMemory>
    ensures { OnOk result (into.new ≡ into.old ++ acquires_word ∷ []) }
{
    into.push_word(alloc, b"acquires", None)
}

fn spell_path_list(
    alloc: Global,
    paths: &[Path],
    last_comma: bool,
    into: &mut Lexemes,
) -> Result<(), NoMemory>
    ensures { OnOk result (into.new ≡ into.old ++ comma_list (map path_spelling paths.now) last_comma) }
{
    let Some((first, rest)) = paths.split_first() else {
        return into.push_last_comma(last_comma);
    };
    spell_path(alloc, first, into)?;
    spell_more_path_list(alloc, rest, into)?;
    into.push_last_comma(last_comma)?;
    Ok(())
}

fn spell_more_path_list(alloc: Global, paths: &[Path], into: &mut Lexemes) -> Result<(), NoMemory>
    ensures { OnOk result (into.new ≡ into.old ++ flat_map path_after_comma paths.now) }
{
    for one in paths {
        into.push_sign(Punctuation::Comma)?;
        spell_path(alloc, one, into)?;
    }
    Ok(())
}

fn spell_acquires(
    alloc: Global,
    acquires: &Option<Paths>,
    into: &mut Lexemes,
) -> Result<(), NoMemory>
    ensures { OnOk result (into.new ≡ into.old ++ acquires_spelling acquires.now) }
{
    match acquires {
        None => Ok(()),
        Some(paths) => {
            spell_acquires_word(alloc, into)?;
            spell_path_list(alloc, &paths.items, paths.last_comma, into)
        }
    }
}

fn spell_function_name(
    alloc: Global,
    function: &Function,
    into: &mut Lexemes,
) -> Result<(), NoMemory>
    ensures { OnOk result (into.new ≡ into.old ++ function_name_spelling function.now) }
{
    spell_visibility(alloc, function.visibility, into)?;
    spell_entry(alloc, function.entry, into)?;
    into.push_word(alloc, b"fun", Some(function.span))?;
    spell_identifier(alloc, &function.name, into)?;
    spell_parameters(alloc, &function.parameters, into)
}

/// Appends the tokens of the parameters of a function, with their parentheses.
pub fn spell_inputs(alloc: Global, inputs: &TypedNames, into: &mut Lexemes) -> Result<(), NoMemory>
    ensures { OnOk result (into.new ≡ into.old ++ inputs_spelling inputs.now) }
{
    into.push_sign(Punctuation::LeftParenthesis)?;
    spell_typed_names(alloc, inputs, into)?;
    into.push_sign(Punctuation::RightParenthesis)
}

fn spell_function(alloc: Global, function: &Function, into: &mut Lexemes) -> Result<(), NoMemory>
    ensures { OnOk result (into.new ≡ into.old ++ function_spelling function.now) }
{
    spell_function_name(alloc, function, into)?;
    spell_inputs(alloc, &function.inputs, into)?;
    spell_annotation(alloc, &function.result, into)?;
    spell_acquires(alloc, &function.acquires, into)?;
    spell_block(alloc, &function.body, into)
}

fn spell_form(alloc: Global, form: &MemberForm, into: &mut Lexemes) -> Result<(), NoMemory>
    ensures { OnOk result (into.new ≡ into.old ++ form_spelling form.now) }
{
    match form {
        MemberForm::Use(used) => spell_use_member(alloc, used, into),
        MemberForm::Friend(friend) => spell_friend(alloc, friend, into),
        MemberForm::Struct(declared) => spell_struct(alloc, declared, into),
        MemberForm::Constant(constant) => spell_constant(alloc, constant, into),
        MemberForm::Function(function) => spell_function(alloc, function, into),
        MemberForm::Spec(spec) => spell_kept_spec(alloc, spec, into),
    }
}

/// Appends the tokens of a member.
pub fn spell_member(alloc: Global, member: &Member, into: &mut Lexemes) -> Result<(), NoMemory>
    ensures { OnOk result (into.new ≡ into.old ++ member_spelling member.now) }
{
    spell_attributes(alloc, &member.attributes, into)?;
    spell_form(alloc, &member.form, into)
}

fn spell_members(alloc: Global, members: &[Member], into: &mut Lexemes) -> Result<(), NoMemory>
    ensures { OnOk result (into.new ≡ into.old ++ flat_map member_spelling members.now) }
{
    for one in members {
        spell_member(alloc, one, into)?;
    }
    Ok(())
}

/// Appends the tokens of a module.
pub fn spell_module(alloc: Global, tree: &Module, into: &mut Lexemes) -> Result<(), NoMemory>
    ensures { OnOk result (into.new ≡ into.old ++ module_tree_spelling tree.now) }
{
    spell_attributes(alloc, &tree.attributes, into)?;
    into.push_word(alloc, b"module", Some(tree.span))?;
    spell_module_name(alloc, &tree.name, into)?;
    into.push_sign(Punctuation::LeftBrace)?;
    spell_members(alloc, &tree.members, into)?;
    into.push_sign(Punctuation::RightBrace)
}

fn spell_modules(alloc: Global, modules: &[Module], into: &mut Lexemes) -> Result<(), NoMemory>
    ensures { OnOk result (into.new ≡ into.old ++ flat_map module_tree_spelling modules.now) }
{
    for one in modules {
        spell_module(alloc, one, into)?;
    }
    Ok(())
}

/// Returns the tokens that spell a file, as far as its tree determines them.
pub fn spell(alloc: Global, file: &File) -> Result<Lexemes, NoMemory>
    ensures { IfOk result (λ spelled. spelled ≡ file_spelling file.now) }
{
    let mut spelled = Lexemes::new(alloc);
    spell_modules(alloc, &file.modules, &mut spelled)?;
    Ok(spelled)
}

//! Writers of spec blocks and their clauses.

ghost use Rattle.std.specs.Prelude.{◌≡◌, [], ◌∷◌, ◌++◌, OnOk, IfOk, map};
ghost use Rattle.std.specs.List.{flat_map};
ghost use Rattle.syntax_tree.specs.Lexemes.{comma_list};
ghost use Rattle.syntax_tree.specs.ClauseSpelling.{requires_word, ensures_word, aborts_if_word, modifies_word, invariant_word, include_word, failure_word, truth_spelling, pragma_value_spelling, pragma_spelling, pragmas_spelling, code_spelling, targets_spelling, update_spelling, post_spelling, bindings_spelling, include_spelling, condition_spelling, clause_spelling, clauses_spelling, clause_block_spelling, schema_spelling, spec_function_head_spelling, spec_function_body_spelling, spec_function_spelling, spec_tree_spelling};
ghost use Rattle.spelling.specs.ClauseAfterCommas.{pragma_after_comma};

use crate::spell_member::{spell_inputs, spell_parameters, spell_typed_name};
use crate::spell_path::{spell_identifier, spell_numeral, spell_path};
use crate::spell_spec_expression::{
    spell_spec_expression, spell_spec_expressions, spell_spec_fields,
};
use crate::spell_type::{spell_maybe_arguments, spell_type};
use base::memory::NoMemory;
use base::span::Span;
use std::alloc::Global;
use syntax_tree::clause::{
    AbortCode, Bindings, Clause, Include, Pragma, PragmaValue, Pragmas, Schema, Spec, SpecFunction,
    Targets,
};
use syntax_tree::lexeme::Lexemes;
use syntax_tree::spec_expression::SpecExpression;
use tokens::token::Punctuation;

#[tactic(auto, unfolding(syntax_tree::specs::ClauseSpelling::requires_word))]
fn spell_requires_word(alloc: Global, span: Span, into: &mut Lexemes) -> Result<(), NoMemory>
    ensures { OnOk result (into.new ≡ into.old ++ requires_word span ∷ []) }
{
    into.push_word(alloc, b"requires", Some(span))
}

#[tactic(auto, unfolding(syntax_tree::specs::ClauseSpelling::ensures_word))]
fn spell_ensures_word(alloc: Global, span: Span, into: &mut Lexemes) -> Result<(), NoMemory>
    ensures { OnOk result (into.new ≡ into.old ++ ensures_word span ∷ []) }
{
    into.push_word(alloc, b"ensures", Some(span))
}

#[tactic(auto, unfolding(syntax_tree::specs::ClauseSpelling::aborts_if_word))]
fn spell_aborts_if_word(alloc: Global, span: Span, into: &mut Lexemes) -> Result<(), NoMemory>
    ensures { OnOk result (into.new ≡ into.old ++ aborts_if_word span ∷ []) }
{
    into.push_word(alloc, b"aborts_if", Some(span))
}

#[tactic(auto, unfolding(syntax_tree::specs::ClauseSpelling::modifies_word))]
fn spell_modifies_word(alloc: Global, span: Span, into: &mut Lexemes) -> Result<(), NoMemory>
    ensures { OnOk result (into.new ≡ into.old ++ modifies_word span ∷ []) }
{
    into.push_word(alloc, b"modifies", Some(span))
}

#[tactic(auto, unfolding(syntax_tree::specs::ClauseSpelling::invariant_word))]
fn spell_invariant_word(alloc: Global, span: Span, into: &mut Lexemes) -> Result<(), NoMemory>
    ensures { OnOk result (into.new ≡ into.old ++ invariant_word span ∷ []) }
{
    into.push_word(alloc, b"invariant", Some(span))
}

#[tactic(auto, unfolding(syntax_tree::specs::ClauseSpelling::include_word))]
fn spell_include_word(alloc: Global, span: Span, into: &mut Lexemes) -> Result<(), NoMemory>
    ensures { OnOk result (into.new ≡ into.old ++ include_word span ∷ []) }
{
    into.push_word(alloc, b"include", Some(span))
}

#[tactic(auto, unfolding(syntax_tree::specs::ClauseSpelling::failure_word))]
fn spell_failure_word(alloc: Global, into: &mut Lexemes) -> Result<(), NoMemory>
    ensures { OnOk result (into.new ≡ into.old ++ failure_word ∷ []) }
{
    into.push_word(alloc, b"EXECUTION_FAILURE", None)
}

fn spell_truth(alloc: Global, span: Span, value: bool, into: &mut Lexemes) -> Result<(), NoMemory>
    ensures { OnOk result (into.new ≡ into.old ++ truth_spelling span value) }
{
    if value {
        into.push_word(alloc, b"true", Some(span))
    } else {
        into.push_word(alloc, b"false", Some(span))
    }
}

fn spell_pragma_value(
    alloc: Global,
    value: &Option<PragmaValue>,
    into: &mut Lexemes,
) -> Result<(), NoMemory>
    ensures { OnOk result (into.new ≡ into.old ++ pragma_value_spelling value.now) }
{
    match value {
        None => Ok(()),
        Some(PragmaValue::Truth { span, value }) => {
            into.push_sign(Punctuation::Equal)?;
            spell_truth(alloc, *span, *value, into)
        }
        Some(PragmaValue::Number(number)) => {
            into.push_sign(Punctuation::Equal)?;
            spell_numeral(alloc, number, into)
        }
    }
}

fn spell_pragma(alloc: Global, pragma: &Pragma, into: &mut Lexemes) -> Result<(), NoMemory>
    ensures { OnOk result (into.new ≡ into.old ++ pragma_spelling pragma.now) }
{
    spell_identifier(alloc, &pragma.name, into)?;
    spell_pragma_value(alloc, &pragma.value, into)
}

fn spell_pragma_list(
    alloc: Global,
    pragmas: &[Pragma],
    last_comma: bool,
    into: &mut Lexemes,
) -> Result<(), NoMemory>
    ensures { OnOk result (into.new ≡ into.old ++ comma_list (map pragma_spelling pragmas.now) last_comma) }
{
    let Some((first, rest)) = pragmas.split_first() else {
        return into.push_last_comma(last_comma);
    };
    spell_pragma(alloc, first, into)?;
    spell_more_pragmas(alloc, rest, into)?;
    into.push_last_comma(last_comma)?;
    Ok(())
}

fn spell_more_pragmas(alloc: Global, pragmas: &[Pragma], into: &mut Lexemes) -> Result<(), NoMemory>
    ensures { OnOk result (into.new ≡ into.old ++ flat_map pragma_after_comma pragmas.now) }
{
    for one in pragmas {
        into.push_sign(Punctuation::Comma)?;
        spell_pragma(alloc, one, into)?;
    }
    Ok(())
}

fn spell_pragmas(alloc: Global, pragmas: &Pragmas, into: &mut Lexemes) -> Result<(), NoMemory>
    ensures { OnOk result (into.new ≡ into.old ++ pragmas_spelling pragmas.now) }
{
    spell_pragma_list(alloc, &pragmas.items, pragmas.last_comma, into)
}

fn spell_code(alloc: Global, code: &AbortCode, into: &mut Lexemes) -> Result<(), NoMemory>
    ensures { OnOk result (into.new ≡ into.old ++ code_spelling code.now) }
{
    match code {
        AbortCode::Bare => Ok(()),
        AbortCode::Failure => {
            into.push_word(alloc, b"with", None)?;
            spell_failure_word(alloc, into)
        }
        AbortCode::Code(code) => {
            into.push_word(alloc, b"with", None)?;
            spell_spec_expression(alloc, &code.expression, into)
        }
    }
}

fn spell_targets(alloc: Global, targets: &Targets, into: &mut Lexemes) -> Result<(), NoMemory>
    ensures { OnOk result (into.new ≡ into.old ++ targets_spelling targets.now) }
{
    spell_spec_expressions(alloc, &targets.items, targets.last_comma, into)
}

fn spell_update(alloc: Global, is_update: bool, into: &mut Lexemes) -> Result<(), NoMemory>
    ensures { OnOk result (into.new ≡ into.old ++ update_spelling is_update) }
{
    if is_update {
        into.push_word(alloc, b"update", None)?;
    }
    Ok(())
}

fn spell_post(alloc: Global, is_post: bool, into: &mut Lexemes) -> Result<(), NoMemory>
    ensures { OnOk result (into.new ≡ into.old ++ post_spelling is_post) }
{
    if is_post {
        into.push_word(alloc, b"post", None)?;
    }
    Ok(())
}

fn spell_bindings(
    alloc: Global,
    bindings: &Option<Bindings>,
    into: &mut Lexemes,
) -> Result<(), NoMemory>
    ensures { OnOk result (into.new ≡ into.old ++ bindings_spelling bindings.now) }
{
    match bindings {
        None => Ok(()),
        Some(bindings) => {
            into.push_sign(Punctuation::LeftBrace)?;
            spell_spec_fields(alloc, &bindings.items, bindings.last_comma, into)?;
            into.push_sign(Punctuation::RightBrace)
        }
    }
}

fn spell_include(alloc: Global, include: &Include, into: &mut Lexemes) -> Result<(), NoMemory>
    ensures { OnOk result (into.new ≡ into.old ++ include_spelling include.now) }
{
    spell_include_word(alloc, include.span, into)?;
    spell_path(alloc, &include.schema, into)?;
    spell_maybe_arguments(alloc, None, &include.arguments, into)?;
    spell_bindings(alloc, &include.bindings, into)?;
    into.push_sign(Punctuation::Semicolon)
}

fn spell_condition(
    alloc: Global,
    condition: &SpecExpression,
    into: &mut Lexemes,
) -> Result<(), NoMemory>
    ensures { OnOk result (into.new ≡ into.old ++ condition_spelling condition.now) }
{
    spell_spec_expression(alloc, condition, into)?;
    into.push_sign(Punctuation::Semicolon)
}

/// Appends the tokens of a clause.
pub fn spell_clause(alloc: Global, clause: &Clause, into: &mut Lexemes) -> Result<(), NoMemory>
    ensures { OnOk result (into.new ≡ into.old ++ clause_spelling clause.now) }
{
    match clause {
        Clause::Pragma { span, pragmas } => {
            into.push_word(alloc, b"pragma", Some(*span))?;
            spell_pragmas(alloc, pragmas, into)?;
            into.push_sign(Punctuation::Semicolon)
        }
        Clause::Requires { span, condition } => {
            spell_requires_word(alloc, *span, into)?;
            spell_condition(alloc, condition, into)
        }
        Clause::Ensures { span, condition } => {
            spell_ensures_word(alloc, *span, into)?;
            spell_condition(alloc, condition, into)
        }
        Clause::AbortsIf {
            span,
            condition,
            code,
        } => {
            spell_aborts_if_word(alloc, *span, into)?;
            spell_spec_expression(alloc, condition, into)?;
            spell_code(alloc, code, into)?;
            into.push_sign(Punctuation::Semicolon)
        }
        Clause::Modifies { span, targets } => {
            spell_modifies_word(alloc, *span, into)?;
            spell_targets(alloc, targets, into)?;
            into.push_sign(Punctuation::Semicolon)
        }
        Clause::Invariant {
            span,
            is_update,
            condition,
        } => {
            spell_invariant_word(alloc, *span, into)?;
            spell_update(alloc, *is_update, into)?;
            spell_condition(alloc, condition, into)
        }
        Clause::Let {
            span,
            is_post,
            name,
            value,
        } => {
            into.push_word(alloc, b"let", Some(*span))?;
            spell_post(alloc, *is_post, into)?;
            spell_identifier(alloc, name, into)?;
            into.push_sign(Punctuation::Equal)?;
            spell_condition(alloc, value, into)
        }
        Clause::Include(include) => spell_include(alloc, include, into),
        Clause::Variable(variable) => {
            spell_typed_name(alloc, variable, into)?;
            into.push_sign(Punctuation::Semicolon)
        }
    }
}

/// Appends the tokens of the clauses between the braces of a block.
pub fn spell_clauses(alloc: Global, clauses: &[Clause], into: &mut Lexemes) -> Result<(), NoMemory>
    ensures { OnOk result (into.new ≡ into.old ++ clauses_spelling clauses.now) }
{
    for one in clauses {
        spell_clause(alloc, one, into)?;
    }
    Ok(())
}

fn spell_clause_block(alloc: Global, clauses: &[Clause], into: &mut Lexemes) -> Result<(), NoMemory>
    ensures { OnOk result (into.new ≡ into.old ++ clause_block_spelling clauses.now) }
{
    into.push_sign(Punctuation::LeftBrace)?;
    spell_clauses(alloc, clauses, into)?;
    into.push_sign(Punctuation::RightBrace)
}

fn spell_schema(alloc: Global, schema: &Schema, into: &mut Lexemes) -> Result<(), NoMemory>
    ensures { OnOk result (into.new ≡ into.old ++ schema_spelling schema.now) }
{
    into.push_word(alloc, b"spec", Some(schema.span))?;
    into.push_word(alloc, b"schema", None)?;
    spell_identifier(alloc, &schema.name, into)?;
    spell_parameters(alloc, &schema.parameters, into)?;
    spell_clause_block(alloc, &schema.clauses.items, into)
}

fn spell_spec_function_head(
    alloc: Global,
    function: &SpecFunction,
    into: &mut Lexemes,
) -> Result<(), NoMemory>
    ensures { OnOk result (into.new ≡ into.old ++ spec_function_head_spelling function.now) }
{
    into.push_word(alloc, b"spec", Some(function.span))?;
    into.push_word(alloc, b"fun", None)?;
    spell_identifier(alloc, &function.name, into)?;
    spell_parameters(alloc, &function.parameters, into)
}

fn spell_spec_function_body(
    alloc: Global,
    body: &SpecExpression,
    into: &mut Lexemes,
) -> Result<(), NoMemory>
    ensures { OnOk result (into.new ≡ into.old ++ spec_function_body_spelling body.now) }
{
    into.push_sign(Punctuation::LeftBrace)?;
    spell_spec_expression(alloc, body, into)?;
    into.push_sign(Punctuation::RightBrace)
}

fn spell_spec_function(
    alloc: Global,
    function: &SpecFunction,
    into: &mut Lexemes,
) -> Result<(), NoMemory>
    ensures { OnOk result (into.new ≡ into.old ++ spec_function_spelling function.now) }
{
    spell_spec_function_head(alloc, function, into)?;
    spell_inputs(alloc, &function.inputs, into)?;
    into.push_sign(Punctuation::Colon)?;
    spell_type(alloc, &function.result, into)?;
    spell_spec_function_body(alloc, &function.body, into)
}

/// Appends the tokens of a spec block.
pub fn spell_spec(alloc: Global, spec: &Spec, into: &mut Lexemes) -> Result<(), NoMemory>
    ensures { OnOk result (into.new ≡ into.old ++ spec_tree_spelling spec.now) }
{
    match spec {
        Spec::Module { span, clauses } => {
            into.push_word(alloc, b"spec", Some(*span))?;
            into.push_word(alloc, b"module", None)?;
            spell_clause_block(alloc, &clauses.items, into)
        }
        Spec::Named {
            span,
            name,
            clauses,
        } => {
            into.push_word(alloc, b"spec", Some(*span))?;
            spell_identifier(alloc, name, into)?;
            spell_clause_block(alloc, &clauses.items, into)
        }
        Spec::Schema(schema) => spell_schema(alloc, schema, into),
        Spec::Function(function) => spell_spec_function(alloc, function, into),
        Spec::Loop { span, clauses } => {
            into.push_word(alloc, b"spec", Some(*span))?;
            spell_clause_block(alloc, &clauses.items, into)
        }
    }
}

/// Returns the tokens that spell a spec block, as far as its tree determines them.
pub fn spell(alloc: Global, spec: &Spec) -> Result<Lexemes, NoMemory>
    ensures { IfOk result (λ spelled. spelled ≡ spec_tree_spelling spec.now) }
{
    let mut spelled = Lexemes::new(alloc);
    spell_spec(alloc, spec, &mut spelled)?;
    Ok(spelled)
}

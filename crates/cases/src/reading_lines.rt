//! The members of a source, with the clauses of its spec blocks.

use crate::expression_lines::fault_line;
use crate::lines::{push_name, push_word};
use crate::source_lines::scan;
use crate::spelled::{are_spelled, begins_with};
use base::memory::NoMemory;
use base::span::Span;
use item_parser::denoted::modules;
use item_parser::source::denoted::source;
use spelling::spell_clause::spell as spell_spec;
use spelling::spell_member::spell;
use std::alloc::Global;
use syntax_tree::clause::{Clause, Spec};
use syntax_tree::member::{Function, Imported, Struct, Visibility};
use syntax_tree::source::{Source, SourceForm, SourceMember};
use tokens::token::{Token, TokenFault, Tokens};

fn clause_word(clause: &Clause) -> &'static str {
    match clause {
        Clause::Pragma { .. } => "pragma",
        Clause::Requires { .. } => "requires",
        Clause::Ensures { .. } => "ensures",
        Clause::AbortsIf { .. } => "aborts_if",
        Clause::Modifies { .. } => "modifies",
        Clause::Invariant {
            is_update: true,
            ..
        } => "update",
        Clause::Invariant { .. } => "invariant",
        Clause::Let { is_post: true, .. } => "post",
        Clause::Let { .. } => "let",
        Clause::Include(_) => "include",
        Clause::Variable(_) => "variable",
    }
}

fn span_of(spec: &Spec) -> Span {
    match spec {
        Spec::Module { span, .. } => *span,
        Spec::Named { span, .. } => *span,
        Spec::Schema(schema) => schema.span,
        Spec::Function(function) => function.span,
        Spec::Loop { span, .. } => *span,
    }
}

/// Whether the tokens from the place of a spec block on begin with those that it is spelled by.
fn is_spelled(alloc: Global, tokens: &[Token], spec: &Spec) -> Result<bool, NoMemory> {
    let span = span_of(spec);
    let spelled = spell_spec(alloc, spec)?;
    let mut rest = tokens;
    for _ in 0..tokens.len() {
        match rest {
            [first, ..] if first.span == span => {
                return Ok(begins_with(rest, spelled.as_slice()));
            }
            [_, behind @ ..] => rest = behind,
            [] => return Ok(false),
        }
    }
    Ok(false)
}

fn push_clauses(line: &mut String, clauses: &[Clause]) -> Result<(), NoMemory> {
    line.push(':')?;
    for clause in clauses {
        push_word(line, clause_word(clause))?;
    }
    Ok(())
}

fn push_spec_head(line: &mut String, spec: &Spec) -> Result<(), NoMemory> {
    match spec {
        Spec::Module { clauses, .. } => {
            line.push_str("spec module")?;
            push_clauses(line, clauses.items.as_slice())
        }
        Spec::Named { name, clauses, .. } => {
            line.push_str("spec ")?;
            push_name(line, &name.text)?;
            push_clauses(line, clauses.items.as_slice())
        }
        Spec::Schema(schema) => {
            line.push_str("spec schema ")?;
            push_name(line, &schema.name.text)?;
            push_clauses(line, schema.clauses.items.as_slice())
        }
        Spec::Function(function) => {
            line.push_str("spec fun ")?;
            push_name(line, &function.name.text)
        }
        Spec::Loop { clauses, .. } => {
            line.push_str("  spec of a loop")?;
            push_clauses(line, clauses.items.as_slice())
        }
    }
}

fn push_spec(
    alloc: Global,
    line: &mut String,
    tokens: &[Token],
    spec: &Spec,
) -> Result<(), NoMemory> {
    push_spec_head(line, spec)?;
    if !is_spelled(alloc, tokens, spec)? {
        line.push_str(", spelled otherwise")?;
    }
    Ok(())
}

/// Writes how many of something there are, where there are some.
fn push_count(alloc: Global, line: &mut String, count: usize, word: &str) -> Result<(), NoMemory> {
    if count > 0 {
        let text = format!(in alloc; ", {count} {word}")?;
        line.push_str(text.as_str())?;
    }
    Ok(())
}

fn push_imported(alloc: Global, line: &mut String, imported: &Imported) -> Result<(), NoMemory> {
    line.push_str("use")?;
    match imported {
        Imported::Module(_) => Ok(()),
        Imported::One(_) => push_count(alloc, line, 1, "name"),
        Imported::Several(names) => push_count(alloc, line, names.items.len(), "names"),
    }
}

fn push_struct(alloc: Global, line: &mut String, tree: &Struct) -> Result<(), NoMemory> {
    line.push_str("struct ")?;
    push_name(line, &tree.name.text)?;
    if let Some(parameters) = &tree.parameters {
        push_count(alloc, line, parameters.items.len(), "type parameters")?;
        for parameter in parameters.items.iter() {
            push_count(alloc, line, parameter.abilities.len(), "constraints")?;
        }
    }
    if let Some(abilities) = &tree.abilities {
        push_count(alloc, line, abilities.items.len(), "abilities")?;
    }
    push_count(alloc, line, tree.fields.items.len(), "fields")
}

fn push_function(alloc: Global, line: &mut String, tree: &Function) -> Result<(), NoMemory> {
    match tree.visibility {
        Visibility::Module => {}
        Visibility::Public(_) => line.push_str("public ")?,
        Visibility::Friends(_) => line.push_str("public(friend) ")?,
    }
    line.push_str("fun ")?;
    push_name(line, &tree.name.text)?;
    if let Some(parameters) = &tree.parameters {
        push_count(alloc, line, parameters.items.len(), "type parameters")?;
        for parameter in parameters.items.iter() {
            push_count(alloc, line, parameter.abilities.len(), "constraints")?;
        }
    }
    push_count(alloc, line, tree.inputs.items.len(), "parameters")?;
    if let Some(paths) = &tree.acquires {
        push_count(alloc, line, paths.items.len(), "acquired")?;
    }
    Ok(())
}

/// Writes a member, and the spec blocks of its loops.
fn push_member(
    alloc: Global,
    lines: &mut String,
    tokens: &[Token],
    member: &SourceMember,
) -> Result<(), NoMemory> {
    match &member.form {
        SourceForm::Use(tree) => push_imported(alloc, lines, &tree.imported)?,
        SourceForm::Friend(_) => lines.push_str("friend")?,
        SourceForm::Struct(tree) => push_struct(alloc, lines, tree)?,
        SourceForm::Constant(tree) => {
            lines.push_str("const ")?;
            push_name(lines, &tree.name.text)?;
        }
        SourceForm::Function(tree) => push_function(alloc, lines, tree)?,
        SourceForm::Spec(tree) => push_spec(alloc, lines, tokens, tree)?,
    }
    push_count(alloc, lines, member.attributes.len(), "attributes")?;
    lines.push('\n')?;
    for spec in member.loops.iter() {
        push_spec(alloc, lines, tokens, spec)?;
        lines.push('\n')?;
    }
    Ok(())
}

fn push_source(
    alloc: Global,
    lines: &mut String,
    tokens: &[Token],
    source: &Source,
) -> Result<(), NoMemory> {
    for tree in source.modules.iter() {
        lines.push_str("module ")?;
        push_name(lines, &tree.name.name.text)?;
        push_count(alloc, lines, tree.attributes.len(), "attributes")?;
        lines.push('\n')?;
        for member in tree.members.iter() {
            push_member(alloc, lines, tokens, member)?;
        }
    }
    Ok(())
}

/// Whether tokens read as a file whose spec blocks are tokens, and spell it; or where its reading ends.
fn file_line(alloc: Global, found: &Tokens) -> Result<String, NoMemory> {
    let tree = match modules(alloc, found) {
        Ok(tree) => tree,
        Err(fault) => return fault_line(alloc, found, fault),
    };
    let spelled = spell(alloc, &tree)?;
    let known = if are_spelled(found.as_slice(), spelled.as_slice()) {
        "read"
    } else {
        "spelled otherwise"
    };
    Ok(String::from_str(alloc, known)?)
}

/// The members of the source that tokens are, or where its reading ends; behind that how they read with spec blocks as
/// tokens, where this differs.
fn member_lines(alloc: Global, found: &Tokens) -> Result<String, NoMemory> {
    let as_file = file_line(alloc, found)?;
    let (mut lines, expected) = match source(alloc, found) {
        Ok(source) => {
            let mut lines = String::new(alloc);
            push_source(alloc, &mut lines, found.as_slice(), &source)?;
            (lines, String::from_str(alloc, "read")?)
        }
        Err(fault) => (
            fault_line(alloc, found, fault)?,
            fault_line(alloc, found, fault)?,
        ),
    };
    if as_file.as_str() != expected.as_str() {
        lines.push_str("\nspec blocks as tokens: ")?;
        lines.push_str(as_file.as_str())?;
    }
    Ok(lines)
}

/// The members of the source that a text is, or where its reading ends.
pub fn reading_lines(alloc: Global, text: &str) -> Result<String, NoMemory> {
    match scan(alloc, 0, text) {
        Ok(found) => member_lines(alloc, &found),
        Err(TokenFault::NoMemory) => Err(NoMemory),
        Err(fault) => Ok(format!(in alloc; "{fault}")?),
    }
}

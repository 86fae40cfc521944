//! The meanings of names in the declarations of a program.

use crate::case_file::SourceText;
use crate::clause_lines::{push_clauses, push_names};
use crate::lines::{push_name, push_word};
use crate::node_words::push_nodes;
use crate::source_lines::sources_of;
use base::memory::NoMemory;
use base::name::Name;
use program::declaration::{Function, Pragmas};
use program::program::Program;
use resolution::fault::ResolveFault;
use resolution::resolve::resolve;
use std::alloc::Global;

/// Writes the pragmas that differ from what holds without any.
fn push_pragmas(line: &mut String, pragmas: Pragmas) -> Result<(), NoMemory> {
    if !pragmas.verify {
        push_word(line, "not verified")?;
    }
    if pragmas.is_opaque {
        push_word(line, "opaque")?;
    }
    if pragmas.aborts_if_is_partial {
        push_word(line, "partial")?;
    }
    if pragmas.aborts_if_is_strict {
        push_word(line, "strict")?;
    }
    Ok(())
}

fn push_function(
    alloc: Global,
    lines: &mut String,
    name: &Name,
    function: &Function,
) -> Result<(), NoMemory> {
    lines.push_str("fun ")?;
    push_name(lines, name)?;
    push_pragmas(lines, function.pragmas)?;
    lines.push(':')?;
    push_nodes(alloc, lines, &function.body)?;
    lines.push('\n')?;
    push_clauses(alloc, lines, function.clauses.as_slice())?;
    for clause in function.loop_clauses.as_slice() {
        lines.push_str("  of a loop")?;
        push_names(alloc, lines, &clause.clause.body)?;
        lines.push('\n')?;
    }
    Ok(())
}

/// Writes the names in the clauses of modules, structs and schemas.
fn push_owners(alloc: Global, lines: &mut String, program: &Program) -> Result<(), NoMemory> {
    for number in 0..program.modules.len() {
        if let Some((id, owner)) = program.modules.entry(number) {
            lines.push_str("module ")?;
            push_name(lines, &id.name)?;
            lines.push('\n')?;
            push_clauses(alloc, lines, owner.clauses.as_slice())?;
        }
    }
    for number in 0..program.structs.len() {
        if let Some((id, owner)) = program.structs.entry(number) {
            lines.push_str("struct ")?;
            push_name(lines, &id.name)?;
            lines.push('\n')?;
            push_clauses(alloc, lines, owner.clauses.as_slice())?;
        }
    }
    for number in 0..program.schemas.len() {
        if let Some((id, schema)) = program.schemas.entry(number) {
            lines.push_str("spec schema ")?;
            push_name(lines, &id.name)?;
            lines.push('\n')?;
            push_clauses(alloc, lines, schema.clauses.as_slice())?;
        }
    }
    Ok(())
}

/// Writes the nodes of functions, and the names in their clauses and in spec functions.
fn push_functions(alloc: Global, lines: &mut String, program: &Program) -> Result<(), NoMemory> {
    for number in 0..program.functions.len() {
        if let Some((id, function)) = program.functions.entry(number) {
            push_function(alloc, lines, &id.name, function)?;
        }
    }
    for number in 0..program.spec_functions.len() {
        if let Some((id, function)) = program.spec_functions.entry(number) {
            lines.push_str("spec fun ")?;
            push_name(lines, &id.name)?;
            lines.push(':')?;
            push_names(alloc, lines, &function.body)?;
            lines.push('\n')?;
        }
    }
    Ok(())
}

/// The meanings of names in the program that texts are, or the first declaration with a name that means nothing.
pub fn name_lines(alloc: Global, texts: &[SourceText]) -> Result<String, NoMemory> {
    let Some(sources) = sources_of(alloc, texts)? else {
        return Ok(String::from_str(alloc, "no source")?);
    };
    let mut lines = String::new(alloc);
    match resolve(alloc, sources.as_slice()) {
        Ok(program) => {
            push_owners(alloc, &mut lines, &program)?;
            push_functions(alloc, &mut lines, &program)?;
        }
        Err(ResolveFault::Unknown { span, .. }) => {
            let start = span.start;
            let text = format!(in alloc; "a name means nothing in what begins at byte {start}")?;
            lines.push_str(text.as_str())?;
        }
        Err(ResolveFault::NoMemory) => return Err(NoMemory),
    }
    Ok(lines)
}

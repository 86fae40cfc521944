//! The tables of types of a program.

use crate::case_file::SourceText;
use crate::source_lines::sources_of;
use crate::type_names::push_type;
use base::memory::NoMemory;
use declaration_cycles::first::first_cycle;
use program::program::Program;
use resolution::fault::ResolveFault;
use resolution::resolve::resolve;
use scopes::module_uses::uses_of;
use std::alloc::Global;
use syntax_tree::source::Source;
use type_check::typed_program::{TypeTable, TypedProgram, type_program};
use type_check::typing::TypeFault;

/// Writes the types of all places of each table, behind a word.
fn push_tables(
    alloc: Global,
    lines: &mut String,
    word: &str,
    tables: &[TypeTable],
) -> Result<(), NoMemory> {
    for table in tables {
        lines.push_str(word)?;
        for number in table.types.as_slice() {
            lines.push(' ')?;
            push_type(alloc, lines, &table.pool, *number)?;
        }
        lines.push('\n')?;
    }
    Ok(())
}

/// Writes the tables of a program, but for those of functions.
fn push_program(alloc: Global, lines: &mut String, typed: &TypedProgram) -> Result<(), NoMemory> {
    push_tables(alloc, lines, "constant:", &typed.constants)?;
    push_tables(alloc, lines, "spec fun:", &typed.spec_functions)?;
    for clauses in &typed.function_clauses {
        push_tables(alloc, lines, "clause:", clauses.own.as_slice())?;
        push_tables(alloc, lines, "clause of a loop:", clauses.loops.as_slice())?;
    }
    for clauses in &typed.struct_clauses {
        push_tables(alloc, lines, "clause of a struct:", clauses.as_slice())?;
    }
    for clauses in &typed.module_clauses {
        push_tables(alloc, lines, "clause of a module:", clauses.as_slice())?;
    }
    for clauses in &typed.instances.clauses {
        push_tables(alloc, lines, "clause of a schema:", clauses.as_slice())?;
    }
    Ok(())
}

/// A program with its tables; nothing where a declaration leads back to itself.
fn typed(
    alloc: Global,
    sources: &[Source],
    program: Program,
) -> Result<Option<TypedProgram>, TypeFault> {
    let uses = uses_of(alloc, sources, &program)?;
    match first_cycle(alloc, &program, uses.as_slice())? {
        None => Ok(Some(type_program(alloc, program)?)),
        Some(_) => Ok(None),
    }
}

/// The tables of the program that texts are.
pub fn table_lines(alloc: Global, texts: &[SourceText]) -> Result<String, NoMemory> {
    let Some(sources) = sources_of(alloc, texts)? else {
        return Ok(String::from_str(alloc, "no source")?);
    };
    let program = match resolve(alloc, sources.as_slice()) {
        Ok(program) => program,
        Err(ResolveFault::Unknown { .. }) => return Ok(String::from_str(alloc, "unknown name")?),
        Err(ResolveFault::NoMemory) => return Err(NoMemory),
    };
    let mut lines = String::new(alloc);
    match typed(alloc, sources.as_slice(), program) {
        Ok(Some(found)) => push_program(alloc, &mut lines, &found)?,
        Ok(None) => lines.push_str("cycle")?,
        Err(TypeFault::NoMemory) => return Err(NoMemory),
        Err(_) => lines.push_str("not typed")?,
    }
    Ok(lines)
}

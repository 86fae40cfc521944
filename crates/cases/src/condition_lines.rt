//! The types of the nodes of clauses and of spec functions.

use crate::clause_lines::form_word;
use crate::lines::push_name;
use crate::type_names::push_type;
use base::memory::NoMemory;
use base::name::Name;
use base::types::{TypeNode, TypeTerm};
use body_types::code::plain::code_types;
use body_types::code::typing::{CodeTyping, function_typing as code_typing};
use body_types::spec::terms::term_of;
use body_types::spec::typing::{SpecTyping, clause_typing, function_typing};
use program::clause::{Clause, ClauseForm};
use program::declaration::{Function, Schema, SpecFunction};
use program::program::Program;
use std::alloc::Global;
use type_constraints::clauses::block::Block;
use type_constraints::spec::setting::{LetType, Names, Owner};
use typing_rules::type_pool::TypePool;

/// What owns clauses: a word, and its name where it has one.
#[derive(Clone, Copy)]
struct Title<'a> {
    word: &'static str,
    name: Option<&'a Name>,
}

fn push_title(lines: &mut String, title: Title<'_>) -> Result<(), NoMemory> {
    lines.push_str(title.word)?;
    if let Some(name) = title.name {
        push_name(lines, name)?;
    }
    Ok(())
}

/// Writes the types of the first so many nodes.
fn push_typing(
    alloc: Global,
    line: &mut String,
    pool: &TypePool,
    typing: &SpecTyping,
    count: usize,
) -> Result<(), NoMemory> {
    match typing {
        SpecTyping::Untypable => {
            line.push_str(": none\n")?;
            return Ok(());
        }
        SpecTyping::Ambiguous(_) => line.push_str(": open")?,
        SpecTyping::Typed(_) => line.push_str(": typed")?,
    }
    for index in 0..count {
        line.push(' ')?;
        match typing.type_of(index) {
            Some(number) => push_type(alloc, line, pool, number)?,
            None => line.push('?')?,
        }
    }
    line.push('\n')?;
    Ok(())
}

/// The type of a `let`, if the clause is one and its value has one.
fn let_type(
    alloc: Global,
    pool: &TypePool,
    typing: &SpecTyping,
    form: &ClauseForm,
) -> Result<Option<LetType>, NoMemory> {
    let ClauseForm::Let { is_post, value } = form else {
        return Ok(None);
    };
    match typing.type_of(*value) {
        Some(number) if number < pool.len() => Ok(Some(LetType {
            is_post: *is_post,
            of: term_of(alloc, pool, number)?,
        })),
        _ => Ok(None),
    }
}

/// Writes the types of the nodes of a clause. Answers the type of its `let`, if it is one.
fn push_clause(
    alloc: Global,
    lines: &mut String,
    program: &Program,
    names: Names<'_>,
    block: Block,
    clause: &Clause,
) -> Result<Option<LetType>, NoMemory> {
    let types = code_types(alloc);
    let mut pool = TypePool::new(alloc);
    let typing = clause_typing(alloc, &types, program, names, block, clause, &mut pool)?;
    push_typing(alloc, lines, &pool, &typing, clause.body.len())?;
    let_type(alloc, &pool, &typing, &clause.form)
}

/// Writes the types of the nodes of each clause of an owner.
fn push_clauses(
    alloc: Global,
    lines: &mut String,
    program: &Program,
    title: Title<'_>,
    owner: Owner<'_>,
    block: Block,
    clauses: &[Clause],
) -> Result<(), NoMemory> {
    let mut lets: Vec<Option<LetType>> = Vec::new(alloc);
    for clause in clauses {
        push_title(lines, title)?;
        lines.push(' ')?;
        lines.push_str(form_word(&clause.form))?;
        let names = Names {
            owner,
            lets: lets.as_slice(),
        };
        let known = push_clause(alloc, lines, program, names, block, clause)?;
        lets.push(known)?;
    }
    Ok(())
}

/// The types of the locals of a function, where its code is typed.
fn local_types(
    alloc: Global,
    program: &Program,
    function: &Function,
) -> Result<Vec<TypeTerm>, NoMemory> {
    let types = code_types(alloc);
    let mut pool = TypePool::new(alloc);
    let mut locals = Vec::new(alloc);
    if let CodeTyping::Typed(numbers, _) = code_typing(
        alloc, &types, program, function, &mut pool,
    )? {
        for number in numbers.as_slice().iter().skip(function.body.len()) {
            if locals.len() < function.locals.as_slice().len() && *number < pool.len() {
                locals.push(term_of(alloc, &pool, *number)?)?;
            }
        }
    }
    Ok(locals)
}

/// Writes the types of the nodes of each clause of the loops of a function.
fn push_loops(
    alloc: Global,
    lines: &mut String,
    program: &Program,
    name: &Name,
    function: &Function,
) -> Result<(), NoMemory> {
    let locals = local_types(alloc, program, function)?;
    for clause in function.loop_clauses.as_slice() {
        let title = Title {
            word: "loop of ",
            name: Some(name),
        };
        push_title(lines, title)?;
        lines.push(' ')?;
        lines.push_str(form_word(&clause.clause.form))?;
        let names = Names {
            owner: Owner::Loop(&function.result, locals.as_slice()),
            lets: &[],
        };
        push_clause(alloc, lines, program, names, Block::Loop, &clause.clause)?;
    }
    Ok(())
}

/// Writes the types of the nodes of each clause of a schema in a block of a function, where its type parameters are
/// truth values.
fn push_schema(
    alloc: Global,
    lines: &mut String,
    program: &Program,
    name: &Name,
    schema: &Schema,
) -> Result<(), NoMemory> {
    let mut types = Vec::new(alloc);
    for _ in 0..schema.type_parameters.as_slice().len() {
        types.push(TypeTerm {
            node: TypeNode::Bool,
        })?;
    }
    let title = Title {
        word: "spec schema ",
        name: Some(name),
    };
    let owner = Owner::Schema(schema, types.as_slice());
    let clauses = schema.clauses.as_slice();
    push_clauses(
        alloc,
        lines,
        program,
        title,
        owner,
        Block::Function,
        clauses,
    )
}

/// Writes the types of the nodes of a spec function.
fn push_function(
    alloc: Global,
    lines: &mut String,
    program: &Program,
    name: &Name,
    function: &SpecFunction,
) -> Result<(), NoMemory> {
    let types = code_types(alloc);
    let mut pool = TypePool::new(alloc);
    let typing = function_typing(alloc, &types, program, function, &mut pool)?;
    lines.push_str("spec fun ")?;
    push_name(lines, name)?;
    push_typing(alloc, lines, &pool, &typing, function.body.len())
}

/// Writes the types in each spec function, and in each clause of modules and schemas.
fn push_shared(
    alloc: Global,
    lines: &mut String,
    program: &Program,
    file: u32,
) -> Result<(), NoMemory> {
    for number in 0..program.spec_functions.len() {
        if let Some((id, function)) = program.spec_functions.entry(number) {
            if function.span.file == file {
                push_function(alloc, lines, program, &id.name, function)?;
            }
        }
    }
    for number in 0..program.modules.len() {
        if let Some((_, of)) = program.modules.entry(number) {
            if of.span.file == file {
                let title = Title {
                    word: "spec module",
                    name: None,
                };
                let clauses = of.clauses.as_slice();
                push_clauses(
                    alloc,
                    lines,
                    program,
                    title,
                    Owner::Module,
                    Block::Module,
                    clauses,
                )?;
            }
        }
    }
    for number in 0..program.schemas.len() {
        if let Some((id, schema)) = program.schemas.entry(number) {
            if schema.span.file == file {
                push_schema(alloc, lines, program, &id.name, schema)?;
            }
        }
    }
    Ok(())
}

/// Writes the types in each clause of structs, functions and loops.
fn push_owned(
    alloc: Global,
    lines: &mut String,
    program: &Program,
    file: u32,
) -> Result<(), NoMemory> {
    for number in 0..program.structs.len() {
        if let Some((id, of)) = program.structs.entry(number) {
            if of.span.file == file {
                let name = Some(&id.name);
                let title = Title {
                    word: "spec ",
                    name,
                };
                let clauses = of.clauses.as_slice();
                let owner = Owner::Struct(of);
                push_clauses(alloc, lines, program, title, owner, Block::Struct, clauses)?;
            }
        }
    }
    for number in 0..program.functions.len() {
        if let Some((id, function)) = program.functions.entry(number) {
            if function.span.file == file {
                let name = Some(&id.name);
                let title = Title {
                    word: "spec ",
                    name,
                };
                let clauses = function.clauses.as_slice();
                let owner = Owner::Function(function);
                push_clauses(
                    alloc,
                    lines,
                    program,
                    title,
                    owner,
                    Block::Function,
                    clauses,
                )?;
                push_loops(alloc, lines, program, &id.name, function)?;
            }
        }
    }
    Ok(())
}

/// Writes the types of the nodes of each spec function and each clause of a file.
pub fn push_conditions(
    alloc: Global,
    lines: &mut String,
    program: &Program,
    file: u32,
) -> Result<(), NoMemory> {
    push_shared(alloc, lines, program, file)?;
    push_owned(alloc, lines, program, file)
}

//! The types of the locals of functions and of the nodes of constants.

use crate::lines::push_name;
use crate::type_names::push_type;
use base::memory::NoMemory;
use base::name::Name;
use body_types::code::plain::code_types;
use body_types::code::runs::constant_run_fails;
use body_types::code::typing::{CodeTyping, constant_typing, function_typing};
use program::declaration::{Constant, Function};
use program::program::Program;
use std::alloc::Global;
use typing_rules::type_pool::TypePool;

/// Writes how a typing went: that there is none, that it is open, or that a number does not fit its type.
fn push_judgement(line: &mut String, typing: &CodeTyping) -> Result<(), NoMemory> {
    match typing {
        CodeTyping::Untypable => line.push_str(" none")?,
        CodeTyping::Ambiguous(_, judged) => {
            line.push_str(" open")?;
            if judged.misfits {
                line.push_str(" misfits")?;
            }
        }
        CodeTyping::Typed(_, judged) => {
            if judged.misfits {
                line.push_str(" misfits")?;
            }
        }
    }
    Ok(())
}

/// Writes the names of a function's locals with their types, where it is typed.
fn push_locals(
    alloc: Global,
    line: &mut String,
    pool: &TypePool,
    typing: &CodeTyping,
    function: &Function,
) -> Result<(), NoMemory> {
    if let CodeTyping::Typed(numbers, _) = typing {
        let types = numbers.as_slice().iter().skip(function.body.len());
        for (local, number) in function.locals.as_slice().iter().zip(types) {
            line.push(' ')?;
            push_name(line, local)?;
            line.push(' ')?;
            push_type(alloc, line, pool, *number)?;
            line.push(',')?;
        }
    }
    push_judgement(line, typing)
}

fn push_function(
    alloc: Global,
    lines: &mut String,
    program: &Program,
    name: &Name,
    function: &Function,
) -> Result<(), NoMemory> {
    let types = code_types(alloc);
    let mut pool = TypePool::new(alloc);
    let typing = function_typing(alloc, &types, program, function, &mut pool)?;
    lines.push_str("fun ")?;
    push_name(lines, name)?;
    lines.push(':')?;
    push_locals(alloc, lines, &pool, &typing, function)?;
    lines.push('\n')?;
    Ok(())
}

/// Writes the types of the nodes of a constant, and whether its run fails.
fn push_constant(
    alloc: Global,
    lines: &mut String,
    program: &Program,
    name: &Name,
    constant: &Constant,
) -> Result<(), NoMemory> {
    let types = code_types(alloc);
    let mut pool = TypePool::new(alloc);
    let typing = constant_typing(alloc, &types, program, constant, &mut pool)?;
    lines.push_str("const ")?;
    push_name(lines, name)?;
    lines.push(':')?;
    if let CodeTyping::Typed(numbers, _) = &typing {
        for number in numbers.as_slice().iter().take(constant.value.len()) {
            lines.push(' ')?;
            push_type(alloc, lines, &pool, *number)?;
        }
    }
    push_judgement(lines, &typing)?;
    if constant_run_fails(alloc, &types, program, constant)? {
        lines.push_str(" fails")?;
    }
    lines.push('\n')?;
    Ok(())
}

/// Writes the types of each constant and each function of a file.
pub fn push_code(
    alloc: Global,
    lines: &mut String,
    program: &Program,
    file: u32,
) -> Result<(), NoMemory> {
    for number in 0..program.constants.len() {
        if let Some((id, constant)) = program.constants.entry(number) {
            if constant.span.file == file {
                push_constant(alloc, lines, program, &id.name, constant)?;
            }
        }
    }
    for number in 0..program.functions.len() {
        if let Some((id, function)) = program.functions.entry(number) {
            if function.span.file == file {
                push_function(alloc, lines, program, &id.name, function)?;
            }
        }
    }
    Ok(())
}

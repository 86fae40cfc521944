//! The first places where a program breaks the rules on types and locals.

use crate::case_file::SourceText;
use base::memory::NoMemory;
use base::span::Span;
use body_types::barred_uses::first::first_barred;
use body_types::code::plain::code_types;
use declaration_cycles::first::first_cycle;
use definite_assignment::whole_program::flow::{FlowFault, flow_fault};
use program::program::Program;
use scopes::module_uses::uses_of;
use std::alloc::Global;
use syntax_tree::source::Source;
use type_check::code::faults::code_faults;
use type_check::code::functions::{FunctionTyping, type_functions};
use type_check::code::typed::{ability_fault, acquires_fault, function_types};
use type_check::typing::{TypeFault, type_program};

/// Writes a rule, and the text of the place where it is broken, up to a bracket or a colon.
fn push_rule(
    lines: &mut String,
    texts: &[SourceText],
    rule: &str,
    span: Span,
) -> Result<(), NoMemory> {
    lines.push_str(rule)?;
    lines.push_str(": ")?;
    if let Some(source) = texts.get(span.file as usize) {
        for letter in source.text.as_str().chars().skip(span.start as usize) {
            if letter == '(' || letter == '<' || letter == '{' || letter == ':' {
                break;
            }
            lines.push(letter)?;
        }
        if texts.len() > 1 {
            lines.push_str(" in ")?;
            lines.push_str(source.name.as_str())?;
        }
    }
    lines.push('\n')?;
    Ok(())
}

fn push_first(
    lines: &mut String,
    texts: &[SourceText],
    rule: &str,
    span: Option<Span>,
) -> Result<(), NoMemory> {
    match span {
        Some(span) => push_rule(lines, texts, rule, span),
        None => Ok(()),
    }
}

/// Writes for each rule on code the first place where it is broken. Rules behind that on typings are looked at only where
/// all functions are typed.
pub fn push_faults(
    alloc: Global,
    lines: &mut String,
    texts: &[SourceText],
    program: &Program,
) -> Result<(), NoMemory> {
    let barred = first_barred(alloc, program)?;
    push_first(lines, texts, "code: barred", barred)?;
    let types = code_types(alloc);
    let typings = type_functions(alloc, &types, program)?;
    let faults = code_faults(alloc, &types, program, &typings)?;
    push_first(lines, texts, "code: untyped", faults.untyped)?;
    push_first(lines, texts, "code: open", faults.unsettled)?;
    if let Some(known) = function_types(alloc, &typings)? {
        let abilities = ability_fault(alloc, program, &known)?;
        push_first(lines, texts, "code: ability", abilities)?;
        let acquires = acquires_fault(alloc, program, &known)?;
        push_first(lines, texts, "code: acquires", acquires)?;
        match flow_fault(alloc, program, &known)? {
            Some(FlowFault::Unassigned(span)) => {
                push_rule(lines, texts, "code: unassigned", span)?
            }
            Some(FlowFault::Undropped(span)) => push_rule(lines, texts, "code: undropped", span)?,
            None => {}
        }
    }
    Ok(())
}

fn push_type_fault(
    lines: &mut String,
    texts: &[SourceText],
    fault: TypeFault,
) -> Result<(), NoMemory> {
    match fault {
        TypeFault::NoTyping(span) => push_rule(lines, texts, "no typing", span),
        TypeFault::Ambiguous(span) => push_rule(lines, texts, "ambiguous", span),
        TypeFault::Ability(span) => push_rule(lines, texts, "ability", span),
        TypeFault::Acquires(span) => push_rule(lines, texts, "acquires", span),
        TypeFault::Unassigned(span) => push_rule(lines, texts, "unassigned", span),
        TypeFault::Undropped(span) => push_rule(lines, texts, "undropped", span),
        TypeFault::NoMemory => Err(NoMemory),
    }
}

/// The typings of a program's functions; nothing where a declaration leads back to itself.
fn typed(
    alloc: Global,
    sources: &[Source],
    program: &Program,
) -> Result<Option<Vec<FunctionTyping>>, TypeFault> {
    let uses = uses_of(alloc, sources, program)?;
    match first_cycle(alloc, program, uses.as_slice())? {
        None => Ok(Some(type_program(alloc, program)?)),
        Some(_) => Ok(None),
    }
}

/// Writes how the typing of the whole program ends: the first rule that it breaks, that a declaration leads back to itself, or that
/// it is typed.
pub fn push_answer(
    alloc: Global,
    lines: &mut String,
    texts: &[SourceText],
    sources: &[Source],
    program: &Program,
) -> Result<(), NoMemory> {
    match typed(alloc, sources, program) {
        Ok(Some(_)) => lines.push_str("typed\n")?,
        Ok(None) => lines.push_str("cycle\n")?,
        Err(fault) => push_type_fault(lines, texts, fault)?,
    }
    Ok(())
}

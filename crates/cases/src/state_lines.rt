//! The states of locals where they are used.

use crate::case_file::SourceText;
use crate::fault_lines::push_answer;
use crate::lines::push_name;
use crate::source_lines::sources_of;
use base::memory::NoMemory;
use body_types::code::plain::code_types;
use definite_assignment::points::states::{LocalState, LocalStates};
use definite_assignment::whole_program::states::program_states;
use program::arena::Node;
use program::code::CodeLeaf;
use program::declaration::Function;
use program::program::Program;
use resolution::fault::ResolveFault;
use resolution::resolve::resolve;
use std::alloc::Global;
use syntax_tree::source::Source;
use type_check::code::functions::type_functions;
use type_check::code::typed::function_types;

fn state_word(state: LocalState) -> &'static str {
    match state {
        LocalState::Unreached => " unreached",
        LocalState::Unassigned => " unassigned",
        LocalState::Assigned => " assigned",
        LocalState::Unsure => " unsure",
    }
}

/// Writes the locals in a function's code, in the order of its nodes, each with its state there.
fn push_uses(
    lines: &mut String,
    function: &Function,
    states: &LocalStates,
) -> Result<(), NoMemory> {
    for index in 0..function.body.len() {
        if let Node::Leaf(CodeLeaf::Local(_, local)) = function.body.node(index) {
            lines.push(' ')?;
            if let Some(name) = function.locals.as_slice().get(*local) {
                push_name(lines, name)?;
            }
            lines.push_str(state_word(states.at(index, *local)))?;
            lines.push(',')?;
        }
    }
    Ok(())
}

/// Writes the states of locals in each function, where all functions are typed.
fn push_states(alloc: Global, lines: &mut String, program: &Program) -> Result<(), NoMemory> {
    let types = code_types(alloc);
    let typings = type_functions(alloc, &types, program)?;
    let Some(known) = function_types(alloc, &typings)? else {
        lines.push_str("not typed\n")?;
        return Ok(());
    };
    let states = program_states(alloc, program, &known)?;
    for (number, of_function) in states.iter().enumerate() {
        if let Some((id, function)) = program.functions.entry(number) {
            lines.push_str("fun ")?;
            push_name(lines, &id.name)?;
            lines.push(':')?;
            push_uses(lines, function, of_function)?;
            lines.push('\n')?;
        }
    }
    Ok(())
}

fn program_lines(
    alloc: Global,
    texts: &[SourceText],
    sources: &[Source],
    program: &Program,
) -> Result<String, NoMemory> {
    let mut lines = String::new(alloc);
    push_states(alloc, &mut lines, program)?;
    push_answer(alloc, &mut lines, texts, sources, program)?;
    Ok(lines)
}

/// The states of locals in the program that texts are, and the first rule on types and locals that it breaks.
pub fn state_lines(alloc: Global, texts: &[SourceText]) -> Result<String, NoMemory> {
    let Some(sources) = sources_of(alloc, texts)? else {
        return Ok(String::from_str(alloc, "no source")?);
    };
    match resolve(alloc, sources.as_slice()) {
        Ok(program) => program_lines(alloc, texts, sources.as_slice(), &program),
        Err(ResolveFault::Unknown { .. }) => Ok(String::from_str(alloc, "unknown name")?),
        Err(ResolveFault::NoMemory) => Err(NoMemory),
    }
}

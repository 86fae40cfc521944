//! The types of a program.

use crate::case_file::SourceText;
use crate::code_lines::push_code;
use crate::condition_lines::push_conditions;
use crate::fault_lines::{push_answer, push_faults};
use crate::source_lines::sources_of;
use base::memory::NoMemory;
use program::program::Program;
use resolution::fault::ResolveFault;
use resolution::resolve::resolve;
use std::alloc::Global;
use syntax_tree::source::Source;

/// The types in the last file of a program, and where the program breaks each rule first.
fn program_lines(
    alloc: Global,
    texts: &[SourceText],
    sources: &[Source],
    program: &Program,
) -> Result<String, NoMemory> {
    let mut lines = String::new(alloc);
    if let Ok(last) = u32::try_from(sources.len().saturating_sub(1)) {
        push_code(alloc, &mut lines, program, last)?;
        push_conditions(alloc, &mut lines, program, last)?;
    }
    push_faults(alloc, &mut lines, texts, program)?;
    push_answer(alloc, &mut lines, texts, sources, program)?;
    Ok(lines)
}

/// The types in the program that texts are.
pub fn typing_lines(alloc: Global, texts: &[SourceText]) -> Result<String, NoMemory> {
    let Some(sources) = sources_of(alloc, texts)? else {
        return Ok(String::from_str(alloc, "no source")?);
    };
    match resolve(alloc, sources.as_slice()) {
        Ok(program) => program_lines(alloc, texts, sources.as_slice(), &program),
        Err(ResolveFault::Unknown { .. }) => Ok(String::from_str(alloc, "unknown name")?),
        Err(ResolveFault::NoMemory) => Err(NoMemory),
    }
}

//! The front end: the typed program of files.

ghost use Rattle.std.specs.Prelude.{◌≤◌, ◌<◌, ◌^◌, length, IfOk, MatchResult};
ghost use Rattle.std.specs.List.{AllByRecursion};
ghost use Rattle.type_check.specs.TypedPrograms.{IsTypedProgram};
ghost use Rattle.front_end.specs.FileFault.{IfInFile};
ghost use Rattle.front_end.specs.Named.{named};
ghost use Rattle.front_end.specs.Program.{rule_stages, source_stages};

use crate::fault::ProgramFault;
use crate::locals::check_locals;
use crate::names::check_names;
use crate::sources::read_sources;
use crate::texts::read_texts;
use crate::types::typed_program_of;
use base::lists::Bytes;
use std::alloc::Global;
use syntax_tree::source::Source;
use type_check::typed_program::TypedProgram;

/// The result of the front end for files that keep all rules.
#[derive(Drop)]
pub struct FrontProgram {
    /// The source tree of each file, in their order.
    pub sources: Vec<Source>,
    /// The resolved program of all sources, with the types of its declarations.
    pub typed: TypedProgram,
}

/// Reads the sources of files, within their limits.
fn sources_of(alloc: Global, files: &[Bytes]) -> Result<Vec<Source>, ProgramFault>
    requires few { length files.now ≤ 2 ^ 32 }
    requires short { AllByRecursion (λ bytes. length bytes < 2 ^ 32) files.now }
    ensures { MatchResult result (λ sources. source_stages.Gives files.now sources.items) (λ fault. IfInFile fault (source_stages.Stops files.now)) }
{
    let texts = read_texts(alloc, files)?;
    let sources = read_sources(alloc, texts.as_slice())?;
    check_locals(alloc, sources.as_slice())?;
    Ok(sources)
}

/// Returns the typed program of the bytes of files. The named address `std` is 1, and no other is defined. The time
/// grows with the tokens of the files, and with the types in the pools of what is typed.
///
/// # Errors
///
/// The first of these that holds of some file, with the first file of which it holds: no tokens spell it; it has too
/// many tokens; they nest too deep; they denote no source; a function has too many parameters and locals; a use of a
/// name means nothing; something is declared twice; code uses what visibility forbids; declarations form a cycle;
/// something has no typing; a type is not determined; an ability is missing; `acquires` leaves out a struct; a local
/// may be used without a value; a value without drop may be left behind. `NoMemory` where memory ran out.
pub fn front(alloc: Global, files: &[Bytes]) -> Result<FrontProgram, ProgramFault>
    requires few { length files.now ≤ 2 ^ 32 }
    requires short { AllByRecursion (λ bytes. length bytes < 2 ^ 32) files.now }
    ensures rules { MatchResult result (λ read. rule_stages.Gives files.now (named read.sources.items read.typed.program)) (λ fault. IfInFile fault (rule_stages.Stops files.now)) }
    ensures typed { IfOk result (λ read. IsTypedProgram read.typed.program read.typed) }
{
    let sources = sources_of(alloc, files)?;
    let program = check_names(alloc, sources.as_slice())?;
    let typed = typed_program_of(alloc, program)?;
    Ok(FrontProgram { sources, typed })
}

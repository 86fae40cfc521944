//! The rules on names.

ghost use Rattle.std.specs.Prelude.{◌≤◌, ◌^◌, length, MatchResult};
ghost use Rattle.front_end.specs.FileFault.{IfInFile};
ghost use Rattle.front_end.specs.Named.{HasUnknown, IsNamed, named};
ghost use Rattle.front_end.specs.Program.{name_stages};

use crate::bounds::{check_cycles, check_visible};
use crate::fault::{FileFault, ProgramFault};
use crate::twice::check_twice;
use base::rule::Rule;
use program::program::Program;
use resolution::fault::ResolveFault;
use resolution::resolve::resolve;
use std::alloc::Global;
use syntax_tree::source::Source;

/// Returns the resolved program of sources.
///
/// # Errors
///
/// `UnknownName` if and only if a use of a name means nothing, with the first declaration in which one does not.
fn program_of(alloc: Global, sources: &[Source]) -> Result<Program, ProgramFault>
    requires few { length sources.now ≤ 2 ^ 32 }
    ensures { MatchResult result (λ program. IsNamed sources.now (named sources.now program)) (λ fault. IfInFile fault (HasUnknown sources.now)) }
{
    match resolve(alloc, sources) {
        Ok(program) => Ok(program),
        Err(ResolveFault::Unknown { file, span }) => {
            let fault = FileFault::breaks(Rule::UnknownName, span.start);
            Err(ProgramFault::InFile(file as u32, fault))
        }
        Err(ResolveFault::NoMemory) => Err(ProgramFault::NoMemory),
    }
}

/// Returns the resolved program of sources that keep the rules on names.
///
/// # Errors
///
/// In this order, each over all files before the next: `UnknownName`, `TwiceDeclared`, `NotVisible` and `Cycle`, each
/// if and only if its rule is broken, with the first declaration that breaks it.
pub fn check_names(alloc: Global, sources: &[Source]) -> Result<Program, ProgramFault>
    requires few { length sources.now ≤ 2 ^ 32 }
    ensures { MatchResult result (λ program. name_stages.Gives sources.now (named sources.now program)) (λ fault. IfInFile fault (name_stages.Stops sources.now)) }
{
    let program = program_of(alloc, sources)?;
    check_twice(alloc, sources)?;
    check_visible(alloc, &program)?;
    check_cycles(alloc, sources, &program)?;
    Ok(program)
}

//! Visibility, and the absence of cycles.

ghost use Rattle.std.specs.Prelude.{MatchResult};
ghost use Rattle.front_end.specs.Bounds.{HasBarred, HasCycle, HasNoCycle, IsAllVisible};
ghost use Rattle.front_end.specs.FileFault.{IfInFile};

use crate::fault::ProgramFault;
use base::rule::Rule;
use body_types::barred_uses::first::first_barred;
use declaration_cycles::first::first_cycle;
use program::order::earlier;
use program::program::Program;
use scopes::module_uses::uses_of;
use scopes::visible::first::first_invisible;
use std::alloc::Global;
use syntax_tree::source::Source;

/// Checks that code uses only what visibility allows.
///
/// # Errors
///
/// `NotVisible` if and only if some code does not, with the first such function or constant: it names what it may not
/// use, or it uses fields or storage that it may not use, where types may be inferred.
pub fn check_visible(alloc: Global, program: &Program) -> Result<(), ProgramFault>
    ensures { MatchResult result (λ _. IsAllVisible program.now) (λ fault. IfInFile fault (HasBarred program.now)) }
{
    let named = first_invisible(alloc, program)?;
    let typed = first_barred(alloc, program)?;
    match earlier(named, typed) {
        None => Ok(()),
        Some(span) => Err(ProgramFault::breaks(Rule::NotVisible, span)),
    }
}

/// Checks that no module, struct, spec function or schema of the program of these sources is on a cycle.
///
/// # Errors
///
/// `Cycle` if and only if one is, with the first such declaration.
pub fn check_cycles(
    alloc: Global,
    sources: &[Source],
    program: &Program,
) -> Result<(), ProgramFault>
    ensures { MatchResult result (λ _. HasNoCycle sources.now program.now) (λ fault. IfInFile fault (HasCycle sources.now program.now)) }
{
    let uses = uses_of(alloc, sources, program)?;
    match first_cycle(alloc, program, uses.as_slice())? {
        None => Ok(()),
        Some(span) => Err(ProgramFault::breaks(Rule::Cycle, span)),
    }
}

//! Resolution of sources to programs.

ghost use Rattle.std.specs.Prelude.{◌≡◌, IfOk, IfErr, OnOk};
ghost use Rattle.resolution.specs.Faults.{IsFaultFrom, IsFaultOf, fault_in};
ghost use Rattle.resolution.specs.Items.{AreKnownIn};
ghost use Rattle.resolution.specs.Known.{KnownData, known_of};
ghost use Rattle.resolution.specs.Modules.{IsKnown, IsWithin};
ghost use Rattle.resolution.specs.Parts.{EnteredOf};
ghost use Rattle.resolution.specs.Programs.{IsProgramOf, declarations_of};

use crate::fault::{DeclarationFault, ResolveFault};
use crate::known::{Known, known_in};
use crate::modules::enter_source;
use program::program::Program;
use scopes::environment::Environment;
use scopes::modules::sources::declaring;
use std::alloc::Global;
use syntax_tree::source::Source;

/// Returns the fault of the sources for a fault in the file with this index.
fn fault_in(fault: DeclarationFault, file: usize) -> ResolveFault
    ensures { result ≡ fault_in fault file }
{
    match fault {
        DeclarationFault::Unknown(span) => ResolveFault::Unknown { file, span },
        DeclarationFault::NoMemory => ResolveFault::NoMemory,
    }
}

/// Adds the declarations of sources to their tables.
fn enter_sources(
    alloc: Global,
    environment: &mut Environment,
    known: &Known,
    sources: &[Source],
    program: &mut Program,
) -> Result<(), ResolveFault>
    ensures entered { OnOk result ((k : KnownData) → IsWithin k environment.old → IsKnown k known.now → EnteredOf (declarations_of k sources.now) program.old program.new) }
    ensures known { OnOk result ((k : KnownData) → IsWithin k environment.old → IsKnown k known.now → AreKnownIn k sources.now) }
    ensures unknown { IfErr result (λ fault. (k : KnownData) → IsWithin k environment.old → IsKnown k known.now → IsFaultFrom k sources.now fault) }
{
    for (file, source) in sources.iter().enumerate() {
        let trees = source.modules.as_slice();
        match enter_source(alloc, environment, known, trees, program) {
            Ok(()) => {}
            Err(fault) => return Err(fault_in(fault, file)),
        }
    }
    Ok(())
}

/// Resolves sources to a program: each table has the declarations in the order of the files and of their texts, and of
/// two with the same name the first. `Unknown` gives the first declaration, in the order of the files, with a use that
/// has no meaning: a `use`, a friend, a struct, a constant, a function, a spec block, or the spec block of a loop,
/// which comes after its function; a module with an unknown address is given by its keyword `module`. `NoMemory` if
/// memory runs out. Duplicate declarations are allowed here.
pub fn resolve(alloc: Global, sources: &[Source]) -> Result<Program, ResolveFault>
    ensures program { IfOk result (IsProgramOf sources.now) }
    ensures known { OnOk result (AreKnownIn (known_of sources.now) sources.now) }
    ensures unknown { IfErr result (IsFaultOf sources.now) }
{
    let mut environment = declaring(alloc, sources)?;
    let known = known_in(alloc, &environment, sources)?;
    let mut program = Program::new(alloc);
    enter_sources(alloc, &mut environment, &known, sources, &mut program)?;
    Ok(program)
}

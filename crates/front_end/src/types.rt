//! The types of declarations, and the rules on types and locals.

ghost use Rattle.std.specs.Prelude.{◌≡◌, List, IfOk, MatchResult};
ghost use Rattle.syntax_tree.specs.SourceModuleData.{SourceModuleData};
ghost use Rattle.declaration_cycles.specs.Circular.{HasNoCycle, schema_kind};
ghost use Rattle.type_check.specs.TypedPrograms.{IsTypedProgram};
ghost use Rattle.front_end.specs.FileFault.{IfInFile};
ghost use Rattle.front_end.specs.Named.{named};
ghost use Rattle.front_end.specs.Typed.{type_stages};

use crate::fault::ProgramFault;
use base::rule::Rule;
use program::program::Program;
use std::alloc::Global;
use type_check::typed_program::{TypedProgram, type_program};
use type_check::typing::TypeFault;

impl From<TypeFault> for ProgramFault {
    ghost use Rattle.front_end.specs.TypeFaults.{fault_of};

    ghost from_gives = { λ given fault. fault ≡ fault_of given };

    fn from(error: TypeFault) -> ProgramFault {
        match error {
            TypeFault::NoTyping(span) => ProgramFault::breaks(Rule::NoTyping, span),
            TypeFault::Ambiguous(span) => ProgramFault::breaks(Rule::Ambiguous, span),
            TypeFault::Ability(span) => ProgramFault::breaks(Rule::Ability, span),
            TypeFault::Acquires(span) => ProgramFault::breaks(Rule::Acquires, span),
            TypeFault::Unassigned(span) => ProgramFault::breaks(Rule::Unassigned, span),
            TypeFault::Undropped(span) => ProgramFault::breaks(Rule::Undropped, span),
            TypeFault::NoMemory => ProgramFault::NoMemory,
        }
    }
}

/// Returns the typed program of a program that keeps the rules on types and locals, whatever its sources.
///
/// # Errors
///
/// In this order, each over all declarations before the next: `NoTyping`, `Ambiguous`, `Ability`, `Acquires`,
/// `Unassigned` and `Undropped`, each if and only if its rule is broken, with the first declaration that breaks it.
pub fn typed_program_of(alloc: Global, program: Program) -> Result<TypedProgram, ProgramFault>
    requires { HasNoCycle (schema_kind program) }
    ensures rules { (sources : List (List SourceModuleData)) → MatchResult result (λ typed. type_stages.Gives (named sources program) (named sources typed.program)) (λ fault. IfInFile fault (type_stages.Stops (named sources program))) }
    ensures typed { IfOk result (λ typed. IsTypedProgram typed.program typed) }
{
    Ok(type_program(alloc, program)?)
}

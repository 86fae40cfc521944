//! The clauses of declarations.

ghost use Rattle.std.specs.Prelude.{IfOk};
ghost use Rattle.body_types.specs.Plain.{AreCodeTypes};
ghost use Rattle.type_check.specs.Reached.{IsRoot};
ghost use Rattle.type_check.specs.Roots.{IsOfFunction, IsOfModule, IsOfStruct, OfSome, TellsOf};
ghost use Rattle.ability_rules.specs.KnownTypes.{AreKnown, IsListed};

use crate::clauses::judged::JudgedClause;
use crate::clauses::owner::judge_owner;
use crate::spec::loops::judge_loops;
use ability_rules::polymorphic_recursion::known::VariableTypes;
use base::memory::NoMemory;
use body_types::code::plain::CodeTypes;
use program::declaration::Function;
use program::program::Program;
use std::alloc::Global;
use type_constraints::clauses::block::Block;
use type_constraints::spec::setting::Owner;

/// The judgments of the clauses of a function and its loops.
fn function_clauses<'a>(
    alloc: Global,
    types: &'a CodeTypes,
    program: &'a Program,
    function: &'a Function,
    known: VariableTypes<'_>,
) -> Result<Vec<JudgedClause>, NoMemory>
    requires types { AreCodeTypes types.now }
    requires known { IsListed program.now function.now known }
    ensures { IfOk result (λ judged. TellsOf program.now (IsOfFunction program.now function.now) judged.items) }
{
    let owner = Owner::Function(function);
    let clauses = function.clauses.as_slice();
    let mut judged = judge_owner(alloc, types, program, owner, Block::Function, clauses)?;
    let mut of_loops = judge_loops(alloc, types, program, function, known)?;
    judged.append(&mut of_loops)?;
    Ok(judged)
}

fn all_functions<'a>(
    alloc: Global,
    types: &'a CodeTypes,
    program: &'a Program,
    known: &[VariableTypes<'_>],
) -> Result<Vec<JudgedClause>, NoMemory>
    requires types { AreCodeTypes types.now }
    requires known { AreKnown program.now known.now }
    ensures { IfOk result (λ judged. TellsOf program.now (OfSome (IsOfFunction program.now) program.now.functions) judged.items) }
{
    let mut judged = Vec::new(alloc);
    for number in 0..known.len() {
        if let Some((_, function)) = program.functions.entry(number) {
            let mut more = function_clauses(alloc, types, program, function, known[number])?;
            judged.append(&mut more)?;
        }
    }
    Ok(judged)
}

fn all_structs<'a>(
    alloc: Global,
    types: &'a CodeTypes,
    program: &'a Program,
) -> Result<Vec<JudgedClause>, NoMemory>
    requires { AreCodeTypes types.now }
    ensures { IfOk result (λ judged. TellsOf program.now (OfSome (IsOfStruct program.now) program.now.structs) judged.items) }
{
    let mut judged = Vec::new(alloc);
    for number in 0..program.structs.len() {
        if let Some((_, declared)) = program.structs.entry(number) {
            let owner = Owner::Struct(declared);
            let clauses = declared.clauses.as_slice();
            let mut more = judge_owner(alloc, types, program, owner, Block::Struct, clauses)?;
            judged.append(&mut more)?;
        }
    }
    Ok(judged)
}

fn all_modules<'a>(
    alloc: Global,
    types: &'a CodeTypes,
    program: &'a Program,
) -> Result<Vec<JudgedClause>, NoMemory>
    requires { AreCodeTypes types.now }
    ensures { IfOk result (λ judged. TellsOf program.now (OfSome (IsOfModule program.now) program.now.modules) judged.items) }
{
    let mut judged = Vec::new(alloc);
    for number in 0..program.modules.len() {
        if let Some((_, declared)) = program.modules.entry(number) {
            let owner = Owner::Module;
            let clauses = declared.clauses.as_slice();
            let mut more = judge_owner(alloc, types, program, owner, Block::Module, clauses)?;
            judged.append(&mut more)?;
        }
    }
    Ok(judged)
}

/// Returns the judgment of each clause of a declaration. The types of the type variables of each function are given in
/// the order of the program.
pub(crate) fn root_clauses<'a>(
    alloc: Global,
    types: &'a CodeTypes,
    program: &'a Program,
    known: &[VariableTypes<'_>],
) -> Result<Vec<JudgedClause>, NoMemory>
    requires types { AreCodeTypes types.now }
    requires known { AreKnown program.now known.now }
    ensures { IfOk result (λ roots. TellsOf program.now (IsRoot program.now) roots.items) }
{
    let mut roots = all_functions(alloc, types, program, known)?;
    let mut of_structs = all_structs(alloc, types, program)?;
    let mut of_modules = all_modules(alloc, types, program)?;
    roots.append(&mut of_structs)?;
    roots.append(&mut of_modules)?;
    Ok(roots)
}

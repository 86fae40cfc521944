//! The clauses of loops, in which the locals of the function have the types that its typing gives them.

ghost use Rattle.std.specs.Prelude.{◌≡◌, ◌<◌, IfOk, length, Some, slice_get};
ghost use Rattle.std.specs.Option.{option_map};
ghost use Rattle.typing_rules.specs.Faults.{IsOfLoop};
ghost use Rattle.body_types.specs.Plain.{AreCodeTypes};
ghost use Rattle.type_check.specs.Roots.{LocalsSay, LoopsSay, TellsOf};
ghost use Rattle.ability_rules.specs.KnownTypes.{IsListed};

use crate::clauses::judged::{JudgedClause, judge_clause};
use ability_rules::polymorphic_recursion::known::VariableTypes;
use base::memory::NoMemory;
use base::types::TypeTerm;
use body_types::code::plain::CodeTypes;
use body_types::spec::terms::term_of;
use program::declaration::Function;
use program::program::Program;
use std::alloc::Global;
use type_constraints::clauses::block::Block;
use type_constraints::spec::setting::{Names, Owner};

/// The number of the type of a type variable, if it has one.
fn number_at(known: VariableTypes<'_>, variable: usize) -> Option<usize>
    requires { variable < length known.types.now }
    ensures { slice_get known.entry.types.now variable ≡ Some result }
{
    known.types[variable]
}

/// The types of the locals of a function as trees; none where one of them has none.
fn local_types(
    alloc: Global,
    program: &Program,
    function: &Function,
    known: VariableTypes<'_>,
) -> Result<Option<Vec<TypeTerm>>, NoMemory>
    requires { IsListed program.now function.now known }
    ensures { IfOk result (λ found. LocalsSay program.now function.now (option_map (λ terms. terms.items) found)) }
{
    let first = function.body.len();
    let mut terms = Vec::new(alloc);
    for local in 0..function.locals.as_slice().len() {
        match number_at(known, first + local) {
            None => return Ok(None),
            Some(number) => terms.push(term_of(alloc, known.pool, number)?)?,
        }
    }
    Ok(Some(terms))
}

/// The judgment of each clause of the loops of a function, whose locals have these types.
fn judge_with<'a>(
    alloc: Global,
    types: &'a CodeTypes,
    program: &'a Program,
    function: &'a Function,
    locals: &'a [TypeTerm],
) -> Result<Vec<JudgedClause>, NoMemory>
    requires { AreCodeTypes types.now }
    ensures { IfOk result (λ judged. LoopsSay program.now function.now locals.now judged.items) }
{
    let names = Names {
        owner: Owner::Loop(&function.result, locals),
        lets: &[],
    };
    let mut judged = Vec::new(alloc);
    for one in function.loop_clauses.as_slice() {
        let (known, _) = judge_clause(alloc, types, program, names, Block::Loop, &one.clause)?;
        judged.push(known)?;
    }
    Ok(judged)
}

/// The judgment of each clause of the loops of a function; none where a local has no type.
pub(crate) fn judge_loops<'a>(
    alloc: Global,
    types: &'a CodeTypes,
    program: &'a Program,
    function: &'a Function,
    known: VariableTypes<'_>,
) -> Result<Vec<JudgedClause>, NoMemory>
    requires types { AreCodeTypes types.now }
    requires known { IsListed program.now function.now known }
    ensures { IfOk result (λ judged. TellsOf program.now (IsOfLoop program.now function.now) judged.items) }
{
    if function.loop_clauses.as_slice().is_empty() {
        return Ok(Vec::new(alloc));
    }
    match local_types(alloc, program, function, known)? {
        None => Ok(Vec::new(alloc)),
        Some(locals) => judge_with(alloc, types, program, function, &locals),
    }
}

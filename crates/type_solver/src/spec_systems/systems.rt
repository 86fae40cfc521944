//! Reads clauses and spec functions as systems of constraints.

ghost use Rattle.std.specs.Prelude.{◌≡◌, IfOk};
ghost use Rattle.type_constraints.specs.SpecSettings.{names_of, owner_types};
ghost use Rattle.type_constraints.specs.Blocks.{block_of};
ghost use Rattle.typing_rules.specs.Clauses.{clause_system, spec_function_system};
ghost use Rattle.type_solver.specs.Plain.{ArePlain};
ghost use Rattle.type_solver.specs.Walked.{Walked};

use crate::emit::Tables;
use crate::plain::PlainTypes;
use crate::spec_systems::steps::read_steps;
use crate::walk::Progress;
use base::memory::NoMemory;
use program::clause::Clause;
use program::declaration::SpecFunction;
use program::program::Program;
use std::alloc::Global;
use type_constraints::clauses::block::Block;
use type_constraints::clauses::clause::{clause_setting, form_arguments, whole_constraints};
use type_constraints::clauses::function::{function_setting, returned};
use type_constraints::numbers::sum;
use type_constraints::spec::setting::Names;
use type_constraints::spec::variables::argument_variables;
use unification::type_variables::open::open_slots;
use unification::type_variables::slots::Slot;

/// The number of type variables, what is known of their types after some steps, and how far reading went.
#[derive(Drop)]
pub struct Walk<'a> {
    pub variables: usize,
    pub slots: Vec<Slot<'a>>,
    pub progress: Progress,
}

/// Reads a spec function.
pub fn read_function<'a>(
    alloc: Global,
    types: &'a PlainTypes,
    program: &'a Program,
    function: &'a SpecFunction,
) -> Result<Walk<'a>, NoMemory>
    requires { ArePlain types.now }
    ensures walked { IfOk result (λ walk. Walked (spec_function_system program.now function.now) walk.slots.items walk.progress) }
    ensures variables { IfOk result (λ walk. walk.variables ≡ (spec_function_system program.now function.now).variables) }
{
    let tables = Tables {
        structs: &program.structs,
        types,
        is_spec: true,
    };
    let setting = function_setting(program, function)?;
    let whole = returned(function);
    let firsts = argument_variables(alloc, setting)?;
    let variables = firsts[setting.body.len()];
    let mut slots = open_slots(alloc, variables)?;
    let progress = read_steps(alloc, tables, &mut slots, setting, &firsts, &[whole])?;
    Ok(Walk {
        variables,
        slots,
        progress,
    })
}

/// Reads a clause in a block with these names. The type arguments of an `include` are type variables after the other
/// ones.
pub fn read_clause<'a>(
    alloc: Global,
    types: &'a PlainTypes,
    program: &'a Program,
    names: Names<'a>,
    block: Block,
    clause: &'a Clause,
) -> Result<Walk<'a>, NoMemory>
    requires { ArePlain types.now }
    ensures walked { IfOk result (λ walk. Walked (clause_system program.now (names_of names.entry) (block_of block) (owner_types names.entry.owner) clause.now) walk.slots.items walk.progress) }
    ensures variables { IfOk result (λ walk. walk.variables ≡ (clause_system program.now (names_of names.entry) (block_of block) (owner_types names.entry.owner) clause.now).variables) }
{
    let tables = Tables {
        structs: &program.structs,
        types,
        is_spec: true,
    };
    let setting = clause_setting(program, names, block, clause)?;
    let firsts = argument_variables(alloc, setting)?;
    let first = firsts[setting.body.len()];
    let whole = whole_constraints(alloc, setting, block, first, &clause.form)?;
    let variables = sum(first, form_arguments(program, &clause.form))?;
    let mut slots = open_slots(alloc, variables)?;
    let progress = read_steps(alloc, tables, &mut slots, setting, &firsts, &whole)?;
    Ok(Walk {
        variables,
        slots,
        progress,
    })
}

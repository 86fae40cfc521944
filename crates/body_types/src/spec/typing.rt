//! The typing of clauses and spec functions.

ghost use Rattle.std.specs.Prelude.{◌≡◌, ◌<◌, ◌≤◌, List, length, slice_get, IfOk};
ghost use Rattle.unification.specs.Slots.{Fits};
ghost use Rattle.type_constraints.specs.SpecSettings.{names_of, owner_types};
ghost use Rattle.type_constraints.specs.Blocks.{block_of};
ghost use Rattle.typing_rules.specs.Answers.{System};
ghost use Rattle.typing_rules.specs.Clauses.{clause_system, spec_function_system};
ghost use Rattle.typing_rules.specs.declared.type_pool.PoolType.{PoolType};
ghost use Rattle.unification.specs.Choices.{AreTypes, VariableSays};
ghost use Rattle.unification.specs.Numbers.{Keeps, number_at};
ghost use Rattle.body_types.specs.Plain.{AreCodeTypes};
ghost use Rattle.body_types.specs.SpecKnown.{IsKnown, IsWalkOf, IsWhole, StopsIfTypable};
ghost use Rattle.body_types.specs.SpecTyped.{SpecTypingSays};

use crate::code::plain::CodeTypes;
use base::memory::NoMemory;
use program::clause::Clause;
use program::declaration::SpecFunction;
use program::program::Program;
use program::sequence::Sequence;
use std::alloc::Global;
use type_constraints::clauses::block::Block;
use type_constraints::spec::setting::Names;
use type_solver::spec_systems::systems::{Walk, read_clause, read_function};
use type_solver::walk::Reading;
use typing_rules::type_pool::TypePool;
use unification::solution::choice::{choose, types_without_defaults};
use unification::type_variables::slots::Slot;

/// The typing of a clause or a spec function.
#[derive(Drop)]
pub enum SpecTyping {
    /// No typing exists.
    Untypable,
    /// Typings exist, and a head is open, or the type of a type variable is not determined: for each type variable the
    /// number in the pool of its type, if it has one.
    Ambiguous(Vec<Option<usize>>),
    /// The types of all type variables, by their numbers in the pool.
    Typed(Sequence<usize>),
}

impl SpecTyping {
    /// The number in the pool of the type of a type variable, if it has one.
    pub fn type_of(&self, variable: usize) -> Option<usize>
        ensures { (s : System) (pool : List PoolType) → SpecTypingSays s pool self.now → variable < s.variables → VariableSays s pool variable result }
    {
        match self {
            SpecTyping::Untypable => None,
            SpecTyping::Ambiguous(numbers) => number_at(numbers.as_slice(), variable),
            SpecTyping::Typed(numbers) => number_in(numbers.as_slice(), variable),
        }
    }
}

/// The number of a type variable, if it has one.
fn number_at(numbers: &[Option<usize>], variable: usize) -> Option<usize>
    ensures { result ≡ number_at numbers.now variable }
{
    match numbers.get(variable) {
        Some(number) => *number,
        None => None,
    }
}

fn number_in(numbers: &[usize], variable: usize) -> Option<usize>
    ensures { result ≡ slice_get numbers.now variable }
{
    match numbers.get(variable) {
        Some(number) => Some(*number),
        None => None,
    }
}

/// The typing of a system that was read up to an open head.
fn stopped_typing<'a>(
    alloc: Global,
    slots: &[Slot<'a>],
    variables: usize,
    pool: &mut TypePool,
) -> Result<SpecTyping, NoMemory>
    requires fits { Fits slots.now }
    requires variables { variables ≤ length slots.now }
    ensures keeps { IfOk result (λ typing. Keeps pool.old pool.new) }
    ensures says { IfOk result (λ typing. (s : System) → IsKnown s slots.now variables → StopsIfTypable s → SpecTypingSays s pool.new typing) }
{
    match types_without_defaults(alloc, pool, slots, variables)? {
        None => Ok(SpecTyping::Untypable),
        Some(numbers) => Ok(SpecTyping::Ambiguous(numbers)),
    }
}

/// The typing of a system that was read completely and has typings.
fn chosen_typing(alloc: Global, numbers: Vec<Option<usize>>) -> Result<SpecTyping, NoMemory>
    ensures { IfOk result (λ typing. (s : System) (pool : List PoolType) → AreTypes s pool numbers.items → IsWhole s → SpecTypingSays s pool typing) }
{
    match choose(alloc, &numbers)? {
        None => Ok(SpecTyping::Ambiguous(numbers)),
        Some(chosen) => Ok(SpecTyping::Typed(chosen)),
    }
}

/// The typing of a system that was read completely.
fn whole_typing<'a>(
    alloc: Global,
    slots: &[Slot<'a>],
    variables: usize,
    pool: &mut TypePool,
) -> Result<SpecTyping, NoMemory>
    requires fits { Fits slots.now }
    requires variables { variables ≤ length slots.now }
    ensures keeps { IfOk result (λ typing. Keeps pool.old pool.new) }
    ensures says { IfOk result (λ typing. (s : System) → IsKnown s slots.now variables → IsWhole s → SpecTypingSays s pool.new typing) }
{
    match types_without_defaults(alloc, pool, slots, variables)? {
        None => Ok(SpecTyping::Untypable),
        Some(numbers) => chosen_typing(alloc, numbers),
    }
}

/// The typing of a system that was read.
fn typing_of<'a>(
    alloc: Global,
    walk: &Walk<'a>,
    pool: &mut TypePool,
) -> Result<SpecTyping, NoMemory>
    requires { (s : System) × IsWalkOf s walk.now }
    ensures keeps { IfOk result (λ typing. Keeps pool.old pool.new) }
    ensures says { IfOk result (λ typing. (s : System) → IsWalkOf s walk.now → SpecTypingSays s pool.new typing) }
{
    match walk.progress.reading {
        Reading::Whole => whole_typing(alloc, &walk.slots, walk.variables, pool),
        Reading::Stopped => stopped_typing(alloc, &walk.slots, walk.variables, pool),
        Reading::Clash => Ok(SpecTyping::Untypable),
    }
}

/// Returns the typing of a clause in a block with these names. After `NoMemory` the pool may contain some of its types.
pub fn clause_typing<'a>(
    alloc: Global,
    types: &'a CodeTypes,
    program: &'a Program,
    names: Names<'a>,
    block: Block,
    clause: &'a Clause,
    pool: &mut TypePool,
) -> Result<SpecTyping, NoMemory>
    requires { AreCodeTypes types.now }
    ensures keeps { IfOk result (λ typing. Keeps pool.old pool.new) }
    ensures says { IfOk result (SpecTypingSays (clause_system program.now (names_of names.entry) (block_of block) (owner_types names.entry.owner) clause.now) pool.new) }
{
    let walk = read_clause(alloc, &types.plain, program, names, block, clause)?;
    typing_of(alloc, &walk, pool)
}

/// Returns the typing of a spec function. After `NoMemory` the pool may contain some of its types.
pub fn function_typing<'a>(
    alloc: Global,
    types: &'a CodeTypes,
    program: &'a Program,
    function: &'a SpecFunction,
    pool: &mut TypePool,
) -> Result<SpecTyping, NoMemory>
    requires { AreCodeTypes types.now }
    ensures keeps { IfOk result (λ typing. Keeps pool.old pool.new) }
    ensures says { IfOk result (SpecTypingSays (spec_function_system program.now function.now) pool.new) }
{
    let walk = read_function(alloc, &types.plain, program, function)?;
    typing_of(alloc, &walk, pool)
}

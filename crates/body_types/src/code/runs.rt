//! Decides whether a run of the initialiser of a constant returns.

ghost use Rattle.std.specs.Prelude.{◌≡◌, ◌<◌, ◌≤◌, ◌+◌, ◌++◌, ◌∷◌, [], All, length, IfOk, OnOk};
ghost use Rattle.std.specs.Bool.{Decides};
ghost use Rattle.base.specs.TypeData.{IntType};
ghost use Rattle.typing_rules.specs.Answers.{System};
ghost use Rattle.typing_rules.specs.Faults.{RunFails};
ghost use Rattle.typing_rules.specs.Pools.{type_at, types};
ghost use Rattle.unification.specs.Choices.{IsSound, HasDefaults};
ghost use Rattle.body_types.specs.Plain.{AreCodeTypes};
ghost use Rattle.body_types.specs.Runs.{integer_types, IsNumberType, IsNodeType, AreNodeTypes, FailsToRun};

use crate::code::fitting::written_number;
use crate::code::plain::CodeTypes;
use crate::code::typable::known_typings;
use crate::constants::initialiser::run_of;
use base::memory::NoMemory;
use base::types::Width;
use program::code::Body;
use program::declaration::Constant;
use program::program::Program;
use std::alloc::Global;
use type_solver::code_systems::systems::read_constant;
use typing_rules::type_pool::{PlainType, PoolType, TypePool};
use unification::solution::choice::{Defaulted, integer_width};

/// The number of an integer type in the pool of all integer types.
fn width_number(width: Width) -> usize
    ensures within { result < 5 }
    ensures is { type_at integer_types result ≡ IntType width }
{
    match width {
        Width::U8 => 0,
        Width::U16 => 1,
        Width::U32 => 2,
        Width::U64 => 3,
        Width::U128 => 4,
    }
}

fn add_integer(pool: &mut TypePool, width: Width) -> Result<(), NoMemory>
    ensures types { OnOk result (types pool.new ≡ types pool.old ++ IntType width ∷ []) }
    ensures count { OnOk result (length pool.new ≡ length pool.old + 1) }
{
    pool.add(PoolType::Plain(PlainType::Int(width)))?;
    Ok(())
}

/// The pool of all integer types.
fn integer_pool(alloc: Global) -> Result<TypePool, NoMemory>
    ensures types { IfOk result (λ pool. types pool ≡ integer_types) }
    ensures count { IfOk result (λ pool. length pool ≡ 5) }
{
    let mut pool = TypePool::new(alloc);
    add_integer(&mut pool, Width::U8)?;
    add_integer(&mut pool, Width::U16)?;
    add_integer(&mut pool, Width::U32)?;
    add_integer(&mut pool, Width::U64)?;
    add_integer(&mut pool, Width::U128)?;
    Ok(pool)
}

/// The number of the type of a type variable. `NoMemory` where it is no integer type, which does not occur: the
/// constraints of a number literal require one.
fn number_type<'a>(defaulted: &Defaulted<'a>, variable: usize) -> Result<usize, NoMemory>
    requires sound { IsSound defaulted.now }
    requires within { variable < length defaulted.now.slots.items }
    ensures within { IfOk result (λ number. number < 5) }
    ensures is { IfOk result (λ number. (s : System) → HasDefaults s defaulted.now → variable < s.variables → IsNumberType s variable number) }
{
    match integer_width(defaulted, variable) {
        Some(width) => Ok(width_number(width)),
        None => Err(NoMemory),
    }
}

/// The number of the type of a node that is a number literal.
fn node_type<'a>(body: &Body, defaulted: &Defaulted<'a>, index: usize) -> Result<usize, NoMemory>
    requires sound { IsSound defaulted.now }
    requires node { index < length body.now.nodes }
    requires within { index < length defaulted.now.slots.items }
    ensures within { IfOk result (λ number. number < 5) }
    ensures is { IfOk result (λ number. (s : System) → HasDefaults s defaulted.now → index < s.variables → IsNodeType s body.now.nodes index number) }
{
    match written_number(body.node(index)) {
        Some(_) => number_type(defaulted, index),
        None => Ok(0),
    }
}

/// The numbers of the types of the nodes that are number literals.
fn node_types<'a>(
    alloc: Global,
    body: &Body,
    defaulted: &Defaulted<'a>,
) -> Result<Vec<usize>, NoMemory>
    requires sound { IsSound defaulted.now }
    requires within { length body.now.nodes ≤ length defaulted.now.slots.items }
    ensures count { IfOk result (λ types. length types.items ≡ length body.now.nodes) }
    ensures within { IfOk result (λ types. All (λ number. number < 5) types.items) }
    ensures are { IfOk result (λ types. (s : System) → HasDefaults s defaulted.now → length body.now.nodes ≤ s.variables → AreNodeTypes s body.now.nodes types.items) }
{
    let mut types = Vec::new(alloc);
    for index in 0..body.len() {
        let number = node_type(body, defaulted, index)?;
        types.push(number)?;
    }
    Ok(types)
}

/// Decides whether a run of code does not return, in the typings with default integer types.
fn fails_to_run<'a>(alloc: Global, body: &Body, defaulted: &Defaulted<'a>) -> Result<bool, NoMemory>
    requires sound { IsSound defaulted.now }
    requires within { length body.now.nodes ≤ length defaulted.now.slots.items }
    ensures { IfOk result (λ fails. (s : System) → HasDefaults s defaulted.now → length body.now.nodes ≤ s.variables → Decides fails (FailsToRun s body.now.nodes)) }
{
    let pool = integer_pool(alloc)?;
    let types = node_types(alloc, body, defaulted)?;
    let value = run_of(alloc, body, &types, &pool)?;
    Ok(value.is_none())
}

/// Decides whether a run of the initialiser of a constant does not return. It types the constant itself.
pub fn constant_run_fails<'a>(
    alloc: Global,
    types: &'a CodeTypes,
    program: &'a Program,
    constant: &'a Constant,
) -> Result<bool, NoMemory>
    requires { AreCodeTypes types.now }
    ensures { IfOk result (λ fails. Decides fails (RunFails program.now constant.now)) }
{
    let walk = read_constant(alloc, &types.plain, program, constant)?;
    match known_typings(alloc, types, walk)? {
        None => Ok(false),
        Some(known) => fails_to_run(alloc, &constant.value, &known.defaulted),
    }
}

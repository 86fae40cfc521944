//! Decides whether a function uses a field of a struct of another module, or global storage at such a struct.

ghost use Rattle.std.specs.Prelude.{◌≡◌, ◌≤◌, ◌-◌, ℕ, suc, true, false, length, min, IfOk};
ghost use Rattle.std.specs.Bool.{Decides};
ghost use Rattle.unification.specs.Slots.{Meets};
ghost use Rattle.typing_rules.specs.Answers.{IsUntypable};
ghost use Rattle.typing_rules.specs.CodeSystems.{function_setting, function_system};
ghost use Rattle.typing_rules.specs.FieldBars.{BarsUse, first_steps};
ghost use Rattle.typing_rules.specs.Settings.{variable_count};
ghost use Rattle.type_solver.specs.Plain.{ArePlain};
ghost use Rattle.body_types.specs.BarredUsesKnown.{IsKnown, IsLast};
ghost use Rattle.body_types.specs.Nodes.{IsListed, NoneBars, SomeBars};

use crate::barred_uses::known::{Known, known_at, last_count};
use crate::barred_uses::nodes::{VariableFacts, node_bars};
use base::memory::NoMemory;
use program::code::Body;
use program::declaration::Function;
use program::program::{ModuleId, Program};
use std::alloc::Global;
use type_constraints::typed_nodes::first::{first_of_all, first_of_next};
use type_solver::plain::PlainTypes;
use typing_rules::type_pool::TypePool;
use unification::solution::forced::forced_types;

/// The number of nodes that are read, where so many steps are: the step before the first node is that of the declared
/// types.
fn nodes_read(body: &Body, steps: usize) -> usize
    ensures { result ≡ min (steps - 1) (length body.now.nodes) }
{
    steps.saturating_sub(1).min(body.len())
}

/// Decides whether visibility forbids the access at one of the first so many nodes.
fn some_bars<'a>(
    program: &Program,
    function: &Function,
    facts: VariableFacts<'a>,
    variables: usize,
    read: usize,
) -> bool
    requires known { IsListed facts.slots.now facts.roots.now facts.pool.now facts.numbers.now }
    requires variables { variables ≡ variable_count (function_setting program.now function.now) }
    requires longer { variables ≤ length facts.slots.now }
    requires read { read ≤ length function.now.body.nodes }
    ensures some { result ≡ true → SomeBars program.now function.now facts.entry.own.now facts.entry.types.now (Meets facts.entry.slots.now) read }
    ensures no { result ≡ false → NoneBars program.now function.now facts.entry.own.now facts.entry.types.now (Meets facts.entry.slots.now) read }
{
    let mut first = first_of_all(function, variables);
    for index in 0..read {
        if node_bars(facts, index, first, function.body.node(index)) {
            return true;
        }
        first = first_of_next(program, function, index, first, variables);
    }
    false
}

/// Decides this for the nodes that are read, from what is known of them.
fn bars_known<'a>(
    alloc: Global,
    program: &Program,
    own: &ModuleId,
    function: &Function,
    known: &Known<'a>,
) -> Result<bool, NoMemory>
    requires { (count : ℕ) × IsKnown (first_steps (function_system program.now function.now) (suc count)) known.now }
    ensures { IfOk result (λ bars. (count : ℕ) → IsKnown (first_steps (function_system program.now function.now) (suc count)) known.now → IsLast (function_system program.now function.now) count → Decides bars (BarsUse program.now own.now function.now)) }
{
    let mut pool = TypePool::new(alloc);
    let slots = known.slots.as_slice();
    let forced = forced_types(alloc, &mut pool, slots, &known.ranking)?;
    let facts = VariableFacts {
        own,
        types: function.type_parameters.as_slice(),
        slots,
        roots: forced.roots.as_slice(),
        pool: &pool,
        numbers: forced.numbers.as_slice(),
    };
    let read = nodes_read(&function.body, known.steps);
    Ok(some_bars(program, function, facts, known.variables, read))
}

/// The same, where so many first nodes have typings, and more have none.
fn bars_last(
    alloc: Global,
    types: &PlainTypes,
    program: &Program,
    own: &ModuleId,
    function: &Function,
    count: usize,
) -> Result<bool, NoMemory>
    requires types { ArePlain types.now }
    requires last { IsLast (function_system program.now function.now) count }
    ensures { IfOk result (λ bars. Decides bars (BarsUse program.now own.now function.now)) }
{
    match known_at(alloc, types, program, function, count)? {
        None => Ok(false),
        Some(known) => bars_known(alloc, program, own, function, &known),
    }
}

/// The same, where all nodes together have no typing.
fn bars_untypable(
    alloc: Global,
    types: &PlainTypes,
    program: &Program,
    own: &ModuleId,
    function: &Function,
    all: usize,
) -> Result<bool, NoMemory>
    requires types { ArePlain types.now }
    requires none { IsUntypable (first_steps (function_system program.now function.now) (suc all)) }
    ensures { IfOk result (λ bars. Decides bars (BarsUse program.now own.now function.now)) }
{
    match last_count(alloc, types, program, function, all)? {
        None => Ok(false),
        Some(count) => bars_last(alloc, types, program, own, function, count),
    }
}

/// Decides whether a function of this module uses a field of a struct of another module, or global storage at such a
/// struct or at a type parameter that has key: at the nodes that are read, in their order, before any at which no
/// typing is left. A function with a typing is read once; otherwise a search finds how many of its first nodes have
/// one, mostly by a few readings, and otherwise by about as many as the logarithm of their number. `NoMemory` also
/// where the number of nodes is the greatest `usize`, as only with more nodes than any memory holds.
pub(crate) fn bars_use(
    alloc: Global,
    types: &PlainTypes,
    program: &Program,
    own: &ModuleId,
    function: &Function,
) -> Result<bool, NoMemory>
    requires { ArePlain types.now }
    ensures { IfOk result (λ bars. Decides bars (BarsUse program.now own.now function.now)) }
{
    let Some(all) = function.body.len().checked_add(1) else {
        return Err(NoMemory);
    };
    match known_at(alloc, types, program, function, all)? {
        None => bars_untypable(alloc, types, program, own, function, all),
        Some(known) => bars_known(alloc, program, own, function, &known),
    }
}

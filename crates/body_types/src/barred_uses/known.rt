//! What is known of the types of variables from the first so many nodes of a function.

ghost use Rattle.std.specs.Prelude.{◌≡◌, ◌+◌, ◌<◌, suc, IfOk, MatchOption};
ghost use Rattle.std.specs.Bool.{Decides};
ghost use Rattle.typing_rules.specs.Answers.{System, HasTyping, IsUntypable};
ghost use Rattle.typing_rules.specs.CodeSystems.{function_system};
ghost use Rattle.typing_rules.specs.FieldBars.{first_steps};
ghost use Rattle.unification.specs.Slots.{Fits};
ghost use Rattle.type_solver.specs.Plain.{ArePlain};
ghost use Rattle.body_types.specs.BarredUsesKnown.{IsReadOf, IsWalkOf, IsLast, HasNone, KnownSays};

use base::memory::NoMemory;
use program::declaration::Function;
use program::program::Program;
use std::alloc::Global;
use type_solver::code_systems::systems::{Walk, read_first_nodes};
use type_solver::plain::PlainTypes;
use type_solver::walk::Reading;
use unification::ranks::{Ranking, ranks};
use unification::type_variables::slots::Slot;

/// What is known of code that has typings: the number of its type variables, what is known of their types, an order in
/// which each variable comes after those that it refers to, and the number of steps that are read.
#[derive(Drop)]
pub(crate) struct Known<'a> {
    pub variables: usize,
    pub slots: Vec<Slot<'a>>,
    pub ranking: Ranking,
    pub steps: usize,
}

/// The same from slots that know the typings; none where there are no typings.
fn from_slots<'a>(
    alloc: Global,
    variables: usize,
    slots: Vec<Slot<'a>>,
    steps: usize,
) -> Result<Option<Known<'a>>, NoMemory>
    requires { Fits slots.items }
    ensures { IfOk result (λ found. (s : System) → IsReadOf s variables slots.entry.items steps → KnownSays s found) }
{
    match ranks(alloc, &slots)? {
        None => Ok(None),
        Some(ranking) => Ok(Some(Known {
            variables,
            slots,
            ranking,
            steps,
        })),
    }
}

/// The same from a walk; none where it ended at a clash.
fn from_walk<'a>(alloc: Global, walk: Walk<'a>) -> Result<Option<Known<'a>>, NoMemory>
    requires { (s : System) × IsWalkOf s walk }
    ensures { IfOk result (λ found. (s : System) → IsWalkOf s walk.entry → KnownSays s found) }
{
    let Walk {
        variables,
        slots,
        progress,
    } = walk;
    match progress.reading {
        Reading::Whole => from_slots(alloc, variables, slots, progress.count),
        Reading::Stopped => from_slots(alloc, variables, slots, progress.count),
        Reading::Clash => Ok(None),
    }
}

/// Returns what is known from a function's declared types and its first so many nodes; none where they have no typing.
pub(crate) fn known_at<'a>(
    alloc: Global,
    types: &'a PlainTypes,
    program: &'a Program,
    function: &'a Function,
    count: usize,
) -> Result<Option<Known<'a>>, NoMemory>
    requires { ArePlain types.now }
    ensures { IfOk result (KnownSays (first_steps (function_system program.now function.now) (suc count))) }
{
    let walk = read_first_nodes(alloc, types, program, function, count)?;
    from_walk(alloc, walk)
}

/// Decides whether there are typings.
fn is_known<'a>(found: &Option<Known<'a>>) -> bool
    ensures { (s : System) → KnownSays s found.now → Decides result (HasTyping s) }
{
    match found {
        None => false,
        Some(_) => true,
    }
}

/// Decides whether the first so many nodes have typings.
fn has_typing(
    alloc: Global,
    types: &PlainTypes,
    program: &Program,
    function: &Function,
    count: usize,
) -> Result<bool, NoMemory>
    requires { ArePlain types.now }
    ensures { IfOk result (λ has. Decides has (HasTyping (first_steps (function_system program.now function.now) (suc count)))) }
{
    let found = known_at(alloc, types, program, function, count)?;
    Ok(is_known(&found))
}

/// The number of steps of a walk that are read.
fn steps_of<'a>(walk: &Walk<'a>) -> usize
    ensures { result ≡ walk.now.progress.count }
{
    walk.progress.count
}

/// A guess of how many first nodes have typings, where the first `all` have none: those before the one at which reading
/// finds a clash. No result depends on it, since reading does not notice a type that would be a part of itself.
fn likely_count<'a>(
    alloc: Global,
    types: &'a PlainTypes,
    program: &'a Program,
    function: &'a Function,
    all: usize,
) -> Result<usize, NoMemory>
    requires { ArePlain types.now }
{
    let walk = read_first_nodes(alloc, types, program, function, all)?;
    Ok(steps_of(&walk).saturating_sub(2))
}

/// The number of nodes to try next: the likely one, then one more, and otherwise half of the rest.
fn next_count(low: usize, high: usize, likely: usize) -> usize
    requires { low + 1 < high }
    ensures above { low < result }
    ensures below { result < high }
{
    if low < likely && likely < high {
        likely
    } else if low == likely {
        low + 1
    } else {
        low + (high - low) / 2
    }
}

/// Finds the greatest number such that the first so many nodes have typings, where the first `all` have none. More
/// nodes have no more typings, so that this is a binary search, which starts at the likely number.
fn last_below(
    alloc: Global,
    types: &PlainTypes,
    program: &Program,
    function: &Function,
    all: usize,
) -> Result<usize, NoMemory>
    requires types { ArePlain types.now }
    requires some { HasTyping (first_steps (function_system program.now function.now) 1) }
    requires none { IsUntypable (first_steps (function_system program.now function.now) (suc all)) }
    ensures { IfOk result (IsLast (function_system program.now function.now)) }
{
    let likely = likely_count(alloc, types, program, function, all)?;
    let mut low = 0;
    let mut high = all;
    while high - low > 1 {
        let middle = next_count(low, high, likely);
        if has_typing(alloc, types, program, function, middle)? {
            low = middle;
        } else {
            high = middle;
        }
    }
    Ok(low)
}

/// The same; none where the declared types have no typing.
pub(crate) fn last_count(
    alloc: Global,
    types: &PlainTypes,
    program: &Program,
    function: &Function,
    all: usize,
) -> Result<Option<usize>, NoMemory>
    requires types { ArePlain types.now }
    requires none { IsUntypable (first_steps (function_system program.now function.now) (suc all)) }
    ensures { IfOk result (λ found. MatchOption found (HasNone (function_system program.now function.now)) (IsLast (function_system program.now function.now))) }
{
    if has_typing(alloc, types, program, function, 0)? {
        Ok(Some(last_below(alloc, types, program, function, all)?))
    } else {
        Ok(None)
    }
}

//! Reads the steps of a system.

ghost use Rattle.std.specs.Prelude.{◌≤◌, ◌∷◌, ◌++◌, [], List, IfOk, length};
ghost use Rattle.type_constraints.specs.Seen.{seen_all};
ghost use Rattle.typing_rules.specs.Constraint as D;
ghost use Rattle.typing_rules.specs.Rules.{TypeReading};
ghost use Rattle.unification.specs.Slots.{Typing, Fits, Meets};
ghost use Rattle.type_solver.specs.Plain.{ArePlain};
ghost use Rattle.type_solver.specs.Equations.{reading_of};
ghost use Rattle.type_solver.specs.Walking.{IsAfter, IsWalk, ReadsAll};

use crate::emit::Tables;
use crate::step::{Step, solve_constraints};
use base::memory::NoMemory;
use std::alloc::Global;
use type_constraints::constraint::Constraint;
use unification::type_variables::slots::Slot;

/// How far steps were read.
#[derive(Clone, Copy, Debug, PartialEq, Eq)]
pub enum Reading {
    /// All of them.
    Whole,
    /// Up to one of which a head is open, if there are typings.
    Stopped,
    /// Up to one that leaves no typing.
    Clash,
}

/// How many steps were read, and how far.
#[derive(Clone, Copy, Debug, PartialEq, Eq)]
pub struct Progress {
    pub count: usize,
    pub reading: Reading,
}

/// The progress before any step: nothing is known of the type variables.
pub fn start<'a>(slots: &[Slot<'a>]) -> Progress
    requires fits { Fits slots.now }
    requires start { (t : Typing) → Meets slots.now t }
    ensures { (w : TypeReading) → IsWalk w (length slots.now) [] slots.now result }
{
    Progress {
        count: 0,
        reading: Reading::Whole,
    }
}

/// The progress after a step.
fn after_step(step: Step, count: usize) -> Result<Progress, NoMemory>
    ensures { IfOk result (IsAfter step count) }
{
    let Some(more) = count.checked_add(1) else {
        return Err(NoMemory);
    };
    match step {
        Step::Settled => Ok(Progress {
            count: more,
            reading: Reading::Whole,
        }),
        Step::Open => Ok(Progress {
            count,
            reading: Reading::Stopped,
        }),
        Step::Clash => Ok(Progress {
            count: more,
            reading: Reading::Clash,
        }),
    }
}

/// Reads a step after so many others, all of which were read.
fn read_next<'a>(
    alloc: Global,
    tables: Tables<'a>,
    slots: &mut Vec<Slot<'a>>,
    count: usize,
    variables: usize,
    constraints: &[Constraint<'a>],
) -> Result<Progress, NoMemory>
    requires types { ArePlain tables.types.now }
    requires fits { Fits slots.old.items }
    requires variables { variables ≤ length slots.old.items }
    ensures walk { IfOk result (λ after. (steps : List (List D.Constraint)) → ReadsAll (reading_of tables.entry) variables steps slots.old.items count → IsWalk (reading_of tables.entry) variables (steps ++ seen_all constraints.now ∷ []) slots.new.items after) }
    ensures fits { IfOk result (λ after. Fits slots.new.items) }
    ensures variables { IfOk result (λ after. variables ≤ length slots.new.items) }
{
    let step = solve_constraints(alloc, tables, slots, constraints, variables)?;
    after_step(step, count)
}

/// Reads a step over the first `variables` type variables, unless reading ended before it.
pub fn read_step<'a>(
    alloc: Global,
    tables: Tables<'a>,
    slots: &mut Vec<Slot<'a>>,
    progress: Progress,
    variables: usize,
    constraints: &[Constraint<'a>],
) -> Result<Progress, NoMemory>
    requires types { ArePlain tables.types.now }
    requires fits { Fits slots.old.items }
    requires variables { variables ≤ length slots.old.items }
    ensures walk { IfOk result (λ after. (steps : List (List D.Constraint)) → IsWalk (reading_of tables.entry) variables steps slots.old.items progress → IsWalk (reading_of tables.entry) variables (steps ++ seen_all constraints.now ∷ []) slots.new.items after) }
    ensures fits { IfOk result (λ after. Fits slots.new.items) }
    ensures variables { IfOk result (λ after. variables ≤ length slots.new.items) }
{
    match progress.reading {
        Reading::Whole => read_next(alloc, tables, slots, progress.count, variables, constraints),
        Reading::Stopped => Ok(progress),
        Reading::Clash => Ok(progress),
    }
}

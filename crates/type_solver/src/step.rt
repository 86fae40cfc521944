//! Solves the constraints of a node.

ghost use Rattle.std.specs.Prelude.{◌≡◌, ◌<◌, ◌≤◌, [], IsTrue, IfOk, length};
ghost use Rattle.type_constraints.specs.Seen.{seen_all};
ghost use Rattle.unification.specs.Slots.{value, Fits, TermWithin};
ghost use Rattle.unification.specs.Grown.{Grows};
ghost use Rattle.type_solver.specs.Plain.{ArePlain};
ghost use Rattle.type_solver.specs.Within.{AllWithin};
ghost use Rattle.type_solver.specs.Equations.{Solved, EachSolved, EquationWithin, EquationsWithin, Keeps, reading_of, is_unsettled};
ghost use Rattle.type_solver.specs.Steps.{ListSays, SettleSays, StepSays, step_of};
ghost use Rattle.type_solver.specs.declared.equation.Equation.{Equation as EquationData};

use crate::emit::{Tables, emit};
use crate::equation::Equation;
use crate::kinds::kind_at;
use crate::within::all_within;
use base::memory::NoMemory;
use std::alloc::Global;
use type_constraints::constraint::Constraint;
use unification::type_variables::heads::KindSeen;
use unification::type_variables::slots::{Slot, Term};
use unification::type_variables::variables::{is_of, one};

/// The result of solving the constraints of a node.
#[derive(Clone, Copy, Debug, PartialEq, Eq)]
pub enum Step {
    Settled,
    /// A head that a constraint needs is open, if there are typings.
    Open,
    /// No typing is left.
    Clash,
}

fn is_unsettled<'a>(equation: Equation<'a>) -> bool
    ensures { result ≡ is_unsettled equation.entry }
{
    matches!(&equation, Equation::Unsettled)
}

/// Lists the equations of the constraints of a node, each in the state before the node. False where a head is open.
fn list_equations<'a>(
    alloc: Global,
    tables: Tables<'a>,
    slots: &mut Vec<Slot<'a>>,
    constraints: &[Constraint<'a>],
    equations: &mut Vec<Equation<'a>>,
) -> Result<bool, NoMemory>
    requires types { ArePlain tables.types.now }
    requires fits { Fits slots.old.items }
    requires within { AllWithin (length slots.old.items) (seen_all constraints.now) }
    requires none { equations.old.items ≡ [] }
    ensures keeps { IfOk result (λ answer. Keeps slots.old.items slots.new.items) }
    ensures says { IfOk result (ListSays (reading_of tables.entry) slots.old.items slots.new.items (seen_all constraints.now) equations.new.items) }
{
    for constraint in constraints {
        let equation = emit(alloc, tables, slots, *constraint)?;
        if is_unsettled(equation) {
            return Ok(false);
        }
        equations.push(equation)?;
    }
    Ok(true)
}

/// Unifies two terms; false where no typing is left.
fn equal<'a>(
    alloc: Global,
    slots: &mut Vec<Slot<'a>>,
    left: Term<'a>,
    right: Term<'a>,
) -> Result<bool, NoMemory>
    requires fits { Fits slots.old.items }
    requires left { TermWithin (length slots.old.items) left }
    requires right { TermWithin (length slots.old.items) right }
    ensures { IfOk result (λ answer. Grows slots.old.items (λ t. value t left.entry ≡ value t right.entry) slots.new.items (λ t. IsTrue answer)) }
{
    Ok(one(alloc, slots, left, right)?)
}

/// Solves that the variable is a reference, of either kind, to the type of a term. `NoMemory` where it is not known
/// whether it is a reference, which does not occur: each type argument of a node is restricted to values before the
/// arguments are solved.
fn lend<'a>(
    alloc: Global,
    slots: &mut Vec<Slot<'a>>,
    term: Term<'a>,
    variable: usize,
) -> Result<bool, NoMemory>
    requires fits { Fits slots.old.items }
    requires term { TermWithin (length slots.old.items) term }
    requires variable { variable < length slots.old.items }
    ensures { IfOk result (λ answer. Grows slots.old.items (λ t. Solved t (EquationData.Lent term.entry variable)) slots.new.items (λ t. IsTrue answer)) }
{
    let seen = kind_at(slots, variable);
    match seen {
        KindSeen::Unsettled => Err(NoMemory),
        KindSeen::Plain => Ok(false),
        KindSeen::To(_, to) => equal(alloc, slots, term, to),
    }
}

/// Solves an equation; false where no typing is left.
fn apply<'a>(
    alloc: Global,
    slots: &mut Vec<Slot<'a>>,
    equation: Equation<'a>,
) -> Result<bool, NoMemory>
    requires fits { Fits slots.old.items }
    requires within { EquationWithin (length slots.old.items) equation }
    ensures { IfOk result (λ answer. Grows slots.old.items (λ t. Solved t equation.entry) slots.new.items (λ t. IsTrue answer)) }
{
    match equation {
        Equation::Always => Ok(true),
        Equation::Never => Ok(false),
        Equation::Unsettled => Ok(false),
        Equation::Equal(left, right) => equal(alloc, slots, left, right),
        Equation::Sorted(sort, variable) => Ok(is_of(slots, variable, sort)),
        Equation::Lent(term, variable) => lend(alloc, slots, term, variable),
    }
}

/// Solves equations; false where no typing is left.
fn apply_all<'a>(
    alloc: Global,
    slots: &mut Vec<Slot<'a>>,
    equations: &[Equation<'a>],
) -> Result<bool, NoMemory>
    requires fits { Fits slots.old.items }
    requires within { EquationsWithin (length slots.old.items) equations.now }
    ensures { IfOk result (λ answer. Grows slots.old.items (λ t. EachSolved t equations.now) slots.new.items (λ t. IsTrue answer)) }
{
    for equation in equations {
        if !apply(alloc, slots, *equation)? {
            return Ok(false);
        }
    }
    Ok(true)
}

/// The step for whether typings may be left.
fn step_of(left: bool) -> Step
    ensures { result ≡ step_of left }
{
    if left { Step::Settled } else { Step::Clash }
}

/// Solves equations, as a step whose heads are settled.
fn settle<'a>(
    alloc: Global,
    slots: &mut Vec<Slot<'a>>,
    equations: &[Equation<'a>],
) -> Result<Step, NoMemory>
    requires fits { Fits slots.old.items }
    requires within { EquationsWithin (length slots.old.items) equations.now }
    ensures { IfOk result (SettleSays slots.old.items slots.new.items equations.now) }
{
    let left = apply_all(alloc, slots, equations)?;
    Ok(step_of(left))
}

/// Solves the constraints of a node, over the first `variables` type variables.
pub fn solve_constraints<'a>(
    alloc: Global,
    tables: Tables<'a>,
    slots: &mut Vec<Slot<'a>>,
    constraints: &[Constraint<'a>],
    variables: usize,
) -> Result<Step, NoMemory>
    requires types { ArePlain tables.types.now }
    requires fits { Fits slots.old.items }
    requires variables { variables ≤ length slots.old.items }
    ensures { IfOk result (StepSays (reading_of tables.entry) variables slots.old.items slots.new.items (seen_all constraints.now)) }
{
    if !all_within(constraints, variables) {
        return Err(NoMemory);
    }
    let mut equations = Vec::new(alloc);
    if !list_equations(alloc, tables, slots, constraints, &mut equations)? {
        return Ok(Step::Open);
    }
    settle(alloc, slots, &equations)
}

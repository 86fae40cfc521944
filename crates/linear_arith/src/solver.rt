//! The solution of a system of linear constraints.

ghost use Rattle.std.specs.Prelude.{◌≡◌, ◌≢◌, ◌⊎◌, ◌↔◌, pos, ◌<ℤ◌, ℕ, All, Contains, IsTrue, IfOk, IfErr, OnOk, List};
ghost use Rattle.linear_arith.specs.Fits.{IsFitting};
ghost use Rattle.linear_arith.specs.Inequality.{Inequality};
ghost use Rattle.linear_arith.specs.Stages.{IsWhole, IsFittingStage, HasAllStages};
ghost use Rattle.linear_arith.specs.Values.{IsChosen, IsChoosing, AreAllChosen};
ghost use Rattle.linear_arith.specs.Wide.{IsWide};
ghost use Rattle.linear_arith.specs.Combination.{IsContradiction};
ghost use Rattle.linear_arith.specs.Bounds.{AreNonzero, AreWithinReach};
ghost use Rattle.linear_arith.specs.Choice.{HaveBounds, IsOfRow, AreCompatible, MeetsStage};
ghost use Rattle.linear_arith.specs.Closure.{IsDue};
ghost use Rattle.linear_arith.specs.declared.elimination.Derived.{Derived};
ghost use Rattle.linear_arith.specs.declared.bounds.Bound.{Bound};
ghost use Rattle.linear_arith.specs.declared.elimination.Stage.{Stage};
ghost use Rattle.linear_arith.specs.Elimination.{ReachesLimit};
ghost use Rattle.linear_arith.specs.Substitution.{ArePositive};
ghost use Rattle.linear_arith.specs.Answer.{IfInfeasible, IfFeasible, IfTooManyRows, IfWide, IsSolution, Shows, StopShows};

use crate::bounds::{Bound, chosen};
use crate::elimination::{Derived, Elimination, Stage};
use crate::rows::{Fraction, Fractions, LinAnswer, LinRow, Rows};
use crate::stop::Stop;
use crate::substitution::put_in_all;
use crate::system::System;
use base::memory::NoMemory;
use std::alloc::Global;

/// Decides whether constraints have a solution in fractions, with evidence, by the Fourier-Motzkin elimination of one
/// unknown after another. A number fits 128 bits where its negation does too.
///
/// `Infeasible` carries multipliers whose combination of the constraints is a contradiction, with all intermediate
/// products and sums in 128 bits. `Feasible` carries values that meet all constraints when they are substituted one
/// after another: one for each unknown, chosen last unknown first, the integer nearest to 0 that meets the bounds if
/// there is one, else a bound. `Wide` carries two constraints whose sum is not in 128 bits: two of one stage; or a
/// constraint after the substitution of values that were chosen in this way, and the next value as a constraint.
/// `TooManyRows` carries 5,000 different constraints of the stages of one elimination. `NoMemory` is returned where
/// there is not enough memory.
///
/// `TooManyRows` is returned exactly where 5,000 different constraints are reached: each other answer comes with an
/// elimination that has all constraints of its stages so far, and fewer than 5,000 different ones. `Infeasible` and a
/// `Wide` pair of one stage are returned where that constraint or sum is due next, the other answers where the
/// elimination is complete.
pub fn solve(alloc: Global, rows: &Rows) -> Result<LinAnswer, NoMemory>
    requires { All IsFitting rows.now }
    ensures infeasible { IfOk result (λ answer. IfInfeasible answer (IsContradiction rows.now)) }
    ensures due { IfOk result (λ answer. IfInfeasible answer (IsDue rows.now)) }
    ensures feasible { IfOk result (λ answer. IfFeasible answer (IsSolution rows.now)) }
    ensures chosen { IfOk result (λ answer. IfFeasible answer (AreAllChosen rows.now)) }
    ensures wide { IfOk result (λ answer. IfWide answer (IsWide rows.now)) }
    ensures too_many_rows { IfOk result (λ answer. IfTooManyRows answer (ReachesLimit rows.now)) }
{
    match answered(alloc, rows.as_slice()) {
        Ok(answer) => Ok(answer),
        Err(Stop::Answered(answer)) => Ok(answer),
        Err(Stop::OutOfMemory) => Err(NoMemory),
    }
}

fn answered(alloc: Global, rows: &[LinRow]) -> Result<LinAnswer, Stop>
    requires { All IsFitting rows.now }
    ensures ok { IfOk result (Shows rows.now) }
    ensures err { IfErr result (StopShows rows.now) }
{
    let system = System::new(rows);
    let mut elimination = Elimination::new(alloc, &system)?;
    elimination.run(&system)?;
    let stages = elimination.into_stages();
    let values = values(alloc, &system, stages.as_slice())?;
    Ok(LinAnswer::Feasible(Fractions::from_values(values)))
}

/// Returns the values, last unknown first. An unknown that no stage eliminates comes before all others, and is 0.
fn values(alloc: Global, system: &System<'_>, stages: &[Stage]) -> Result<Vec<Fraction>, Stop>
    requires { HasAllStages system.now.width system.now.rows.now stages.now }
    ensures ok { IfOk result (λ values. IsSolution system.now.rows.now values.items) }
    ensures chosen { IfOk result (λ values. AreAllChosen system.now.rows.now values.items) }
    ensures err { IfErr result (StopShows system.now.rows.now) }
{
    let mut values = Vec::with_capacity(alloc, system.width)?;
    for unknown in 0..system.width {
        if is_kept(unknown, stages) {
            values.push(Fraction {
                unknown,
                numerator: 0,
                denominator: 1,
            })?;
        }
    }
    for i in (0..stages.len()).rev() {
        let value = value_at(alloc, &stages[i], values.as_slice())?;
        values.push(value)?;
    }
    Ok(values)
}

/// Decides whether no stage eliminates the unknown.
fn is_kept(unknown: usize, stages: &[Stage]) -> bool
    ensures { IsTrue result ↔ All (λ (stage : Stage). stage.unknown ≢ unknown) stages.now }
{
    stages.iter().all(|stage| stage.unknown != unknown)
}

/// Returns the value of a stage's unknown, given those chosen before.
fn value_at(alloc: Global, stage: &Stage, values: &[Fraction]) -> Result<Fraction, Stop>
    requires values { ArePositive values.now }
    requires compatible { AreCompatible stage.now values.now }
    requires fits { IsFittingStage stage.now }
    ensures unknown { IfOk result (λ value. value.unknown ≡ stage.now.unknown) }
    ensures positive { IfOk result (λ value. pos 0 <ℤ value.denominator) }
    ensures met { IfOk result (MeetsStage stage.now values.now) }
    ensures chosen { (found : List Inequality) (before : List ℕ) → IsWhole found before stage.now → IfOk result (IsChosen found before values.now) }
    ensures err { (rows : List Inequality) (choosing : IsChoosing rows values.now) (before : List ℕ) → IsWhole choosing.complete.found before stage.now → IfErr result (StopShows rows) }
{
    let mut bounds = Vec::new(alloc);
    put_bounds(
        alloc,
        stage.unknown,
        stage.upper.as_slice(),
        values,
        &mut bounds,
    )?;
    put_bounds(
        alloc,
        stage.unknown,
        stage.lower.as_slice(),
        values,
        &mut bounds,
    )?;
    match chosen(stage.unknown, bounds.as_slice()) {
        Some(value) => Ok(value),
        None => unreachable!(),
    }
}

/// Adds the bounds of an unknown, which are its constraints after the substitution of the values.
fn put_bounds(
    alloc: Global,
    unknown: usize,
    rows: &[Derived],
    values: &[Fraction],
    bounds: &mut Vec<Bound>,
) -> Result<(), Stop>
    requires values { ArePositive values.now }
    requires fits { All (λ (made : Derived). IsFitting made.row) rows.now }
    requires bounds { AreNonzero bounds.old.items }
    requires reached { AreWithinReach bounds.old.items }
    ensures ok { OnOk result (AreNonzero bounds.new.items) }
    ensures reached { OnOk result (AreWithinReach bounds.new.items) }
    ensures kept { OnOk result ((bound : Bound) → Contains bounds.old.items bound → Contains bounds.new.items bound) }
    ensures put { OnOk result (HaveBounds rows.now values.now unknown bounds.new.items) }
    ensures from { OnOk result ((bound : Bound) → Contains bounds.new.items bound → Contains bounds.old.items bound ⊎ IsOfRow rows.now values.now unknown bound) }
    ensures err { (given : List Inequality) (choosing : IsChoosing given values.now) → All (λ (made : Derived). Contains choosing.complete.found made.row) rows.now → IfErr result (StopShows given) }
{
    for made in rows {
        let left = put_in_all(alloc, &made.row, values)?;
        let bound = Bound {
            coefficient: left.coefficient(unknown),
            bound: left.bound(),
        };
        if bound.coefficient != 0 {
            bounds.push(bound)?;
        }
    }
    Ok(())
}

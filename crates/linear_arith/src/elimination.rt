//! The Fourier-Motzkin elimination of one unknown after another.

ghost use Rattle.std.specs.Prelude.{◌≡◌, ◌<◌, ◌∷◌, ◌++◌, [], pos, ◌<ℤ◌, ◌≤ℤ◌, All, Contains, IfErr, IfOk, OnOk, IfSome, IfNone, ℕ, length, get_or, true, List};
ghost use Rattle.std.specs.Option.{SomeIff};
ghost use Rattle.linear_arith.specs.Inequality.{Inequality, coefficient, padded};
ghost use Rattle.linear_arith.specs.Closure.{IsSumOf, HasSum, IsBegun, IsDue};
ghost use Rattle.linear_arith.specs.declared.elimination.Derived.{Derived};
ghost use Rattle.linear_arith.specs.Combination.{combination, CombinesWithin};
ghost use Rattle.linear_arith.specs.Elimination.{IsUnit};
ghost use Rattle.linear_arith.specs.Stages.{AreMultipliers, IsDerived, AreBefore, IsStage, IsStageBefore, IsUnderWay, HasKey, AreParted, IsExtended, IsCaughtUp, IsLeft, NoneIsLeft, IsSound, KeepsStages, HasAllStages};
ghost use Rattle.linear_arith.specs.Answer.{StopShows};

use crate::combination::combined;
use crate::packed::Packed;
use crate::reduction::reduced;
use crate::rows::{LinAnswer, LinRow, Multipliers, Rows};
use crate::stop::{Stop, wide};
use crate::sums::{cancelling, least_mixed, sum_of_rows};
use crate::system::System;
use base::memory::NoMemory;
use std::alloc::Global;
use std::collections::BTreeSet;
use std::mem;

/// The number of different constraints of all stages at which an elimination stops.
pub const MOST_ROWS: usize = 5000;

/// A constraint of a stage.
#[derive(Drop)]
pub struct Derived {
    /// The constraint itself.
    pub row: LinRow,
    /// The combination of the given constraints by the multipliers: a positive multiple of the constraint.
    pub total: LinRow,
    /// A multiplier for each given constraint.
    pub multipliers: Packed,
}

/// The constraints that the elimination of an unknown removes.
#[derive(Drop)]
pub struct Stage {
    pub unknown: usize,
    /// The constraints in which the unknown has a coefficient above 0.
    pub upper: Vec<Derived>,
    /// The constraints in which the unknown has a coefficient below 0.
    pub lower: Vec<Derived>,
}

/// An elimination in progress.
#[derive(Drop)]
pub struct Elimination {
    alloc: Global,
    /// The unknowns that are eliminated, in order.
    unknowns: Vec<usize>,
    /// The different constraints of all stages, in the order in which they are derived.
    found: Rows,
    /// The numbers of these constraints.
    keys: BTreeSet<Vec<i128>>,
    /// The constraints of the current stage.
    live: Vec<Derived>,
    /// The earlier stages, each with the constraints on its unknown.
    stages: Vec<Stage>,
}

impl Elimination {
    /// Returns the first stage: the given constraints without duplicates.
    pub fn new(alloc: Global, system: &System<'_>) -> Result<Elimination, Stop>
        ensures ok { IfOk result (IsUnderWay system.now.width system.now.rows.now) }
        ensures caught_up { IfOk result (IsCaughtUp system.now.width system.now.rows.now) }
        ensures stages { IfOk result KeepsStages }
        ensures err { IfErr result (StopShows system.now.rows.now) }
    {
        let mut elimination = Elimination {
            alloc,
            unknowns: Vec::new(alloc),
            found: Rows::new(alloc),
            keys: BTreeSet::new(alloc),
            live: Vec::new(alloc),
            stages: Vec::new(alloc),
        };
        for i in 0..system.rows.len() {
            elimination.add(given(alloc, system, i)?)?;
        }
        Ok(elimination)
    }

    /// Returns the stages, once no unknown is left.
    pub fn into_stages(self) -> Vec<Stage>
        ensures { result.items ≡ self.stages.items }
    {
        let Elimination {
            alloc: _,
            unknowns,
            found,
            keys,
            live,
            stages,
        } = self;
        drop(unknowns);
        drop(found);
        drop(keys);
        drop(live);
        stages
    }

    /// Adds a constraint to the current stage, unless it was derived before. Stops where the limit of constraints is
    /// reached.
    fn add(&mut self, made: Derived) -> Result<(), Stop>
        ensures ok { (width : ℕ) (rows : List Inequality) → IsUnderWay width rows self.old → IsDerived width rows self.old.unknowns.items made → OnOk result (IsUnderWay width rows self.new) }
        ensures err { (width : ℕ) (rows : List Inequality) → IsUnderWay width rows self.old → IsDerived width rows self.old.unknowns.items made → IfErr result (StopShows rows) }
        ensures unknowns { OnOk result (self.new.unknowns.items ≡ self.old.unknowns.items) }
        ensures grown { (width : ℕ) (rows : List Inequality) → IsUnderWay width rows self.old → IsDerived width rows self.old.unknowns.items made → OnOk result (IsExtended self.old self.new) }
        ensures added { (width : ℕ) (rows : List Inequality) → IsUnderWay width rows self.old → OnOk result (Contains self.new.found made.row) }
    {
        if self.keys.insert(key_of(self.alloc, &made.row)?)? {
            self.found.push(made.row.try_clone(self.alloc)?)?;
            self.live.push(made)?;
            if self.found.as_slice().len() >= MOST_ROWS {
                let found = mem::replace(&mut self.found, Rows::new(self.alloc));
                return Err(Stop::Answered(LinAnswer::TooManyRows(found)));
            }
        }
        Ok(())
    }

    /// Returns true only for a constraint that was derived before.
    fn stands(&self, row: &LinRow) -> Result<bool, NoMemory>
        ensures { IfOk result (λ stands. stands ≡ true → HasKey self.now.keys row.now) }
    {
        let key = key_of(self.alloc, row)?;
        Ok(self.keys.contains(&key))
    }

    /// Returns the unknown with the fewest sums, or none if none is left.
    fn next_unknown(&self, width: usize) -> Option<usize>
        ensures some { IfSome result (λ unknown. (unknown < width) × IsLeft self.now.live.items unknown) }
        ensures none { IfNone result (NoneIsLeft width self.now.live.items) }
    {
        let mut best = None;
        let mut fewest = usize::MAX;
        for unknown in 0..width {
            if let Some(sums) = sums_with(self.live.as_slice(), unknown) {
                if best.is_none() || sums < fewest {
                    best = Some(unknown);
                    fewest = sums;
                }
            }
        }
        best
    }

    /// Goes to the next stage, and removes the constraints on the unknown from it.
    fn split(&mut self, unknown: usize) -> Result<Stage, NoMemory>
        ensures unknown { IfOk result (λ stage. stage.unknown ≡ unknown) }
        ensures parted { IfOk result (λ stage. AreParted unknown self.old.live.items stage.upper.items stage.lower.items self.new.live.items) }
        ensures found { OnOk result (self.new.found ≡ self.old.found) }
        ensures stages { OnOk result (self.new.stages ≡ self.old.stages) }
        ensures unknowns { OnOk result (self.new.unknowns.items ≡ self.old.unknowns.items ++ unknown ∷ []) }
        ensures stage { (width : ℕ) (rows : List Inequality) → IsUnderWay width rows self.old → IfOk result (IsStage width rows self.old.unknowns.items) }
        ensures under_way { (width : ℕ) (rows : List Inequality) → IsUnderWay width rows self.old → OnOk result (IsUnderWay width rows self.new) }
    {
        let mut stage = Stage {
            unknown,
            upper: Vec::new(self.alloc),
            lower: Vec::new(self.alloc),
        };
        self.unknowns.push(unknown)?;
        let live = mem::replace(&mut self.live, Vec::new(self.alloc));
        for made in live {
            let coefficient = made.total.coefficient(unknown);
            if coefficient > 0 {
                stage.upper.push(made)?;
            } else if coefficient < 0 {
                stage.lower.push(made)?;
            } else {
                self.live.push(made)?;
            }
        }
        Ok(stage)
    }

    /// Goes to the next stage: the constraints without the unknown, and the sums of two constraints that cancel it.
    fn eliminate(&mut self, system: &System<'_>, unknown: usize) -> Result<(), Stop>
        requires under_way { IsUnderWay system.now.width system.now.rows.now self.old }
        requires caught_up { IsCaughtUp system.now.width system.now.rows.now self.old }
        requires stages { KeepsStages self.old }
        requires below { unknown < system.now.width }
        requires left { IsLeft self.old.live.items unknown }
        ensures ok { OnOk result (IsUnderWay system.now.width system.now.rows.now self.new) }
        ensures caught_up { OnOk result (IsCaughtUp system.now.width system.now.rows.now self.new) }
        ensures stages { OnOk result (KeepsStages self.new) }
        ensures unknowns { OnOk result (self.new.unknowns.items ≡ self.old.unknowns.items ++ unknown ∷ []) }
        ensures err { IfErr result (StopShows system.now.rows.now) }
    {
        let stage = self.split(unknown)?;
        self.add_sums(system, &stage)?;
        self.stages.push(stage)?;
        Ok(())
    }

    /// Adds the sums of two constraints that cancel the stage's unknown.
    fn add_sums(&mut self, system: &System<'_>, stage: &Stage) -> Result<(), Stop>
        requires under_way { IsUnderWay system.now.width system.now.rows.now self.old }
        requires before { IsStageBefore system.now.width system.now.rows.now self.old.found self.old.unknowns.items stage.now }
        ensures ok { OnOk result (IsUnderWay system.now.width system.now.rows.now self.new) }
        ensures grown { OnOk result (IsExtended self.old self.new) }
        ensures sums { OnOk result (All (λ (upper : Derived). All (λ (lower : Derived). HasSum self.new.found stage.now.unknown upper.row lower.row) stage.now.lower.items) stage.now.upper.items) }
        ensures err { IfErr result (StopShows system.now.rows.now) }
    {
        for upper in stage.upper.iter() {
            for lower in stage.lower.iter() {
                self.add_sum(system, stage.unknown, upper, lower)?;
            }
        }
        Ok(())
    }

    /// Adds the sum of two constraints that cancels an unknown.
    fn add_sum(
        &mut self,
        system: &System<'_>,
        unknown: usize,
        upper: &Derived,
        lower: &Derived,
    ) -> Result<(), Stop>
        requires under_way { IsUnderWay system.now.width system.now.rows.now self.old }
        requires before { AreBefore system.now.width system.now.rows.now self.old.found self.old.unknowns.items unknown upper.now lower.now }
        ensures ok { OnOk result (IsUnderWay system.now.width system.now.rows.now self.new) }
        ensures grown { OnOk result (IsExtended self.old self.new) }
        ensures sum { OnOk result (HasSum self.new.found unknown upper.now.row lower.now.row) }
        ensures err { IfErr result (StopShows system.now.rows.now) }
        ensures unknowns { OnOk result (self.new.unknowns.items ≡ self.old.unknowns.items) }
    {
        if let Some(sum) = sum_of_rows(self.alloc, unknown, &upper.row, &lower.row)? {
            if self.stands(&sum)? {
                return Ok(());
            }
        }
        self.add(sum_without(self.alloc, system, unknown, upper, lower)?)
    }

    /// Eliminates all unknowns.
    pub fn run(&mut self, system: &System<'_>) -> Result<(), Stop>
        requires under_way { IsUnderWay system.now.width system.now.rows.now self.old }
        requires caught_up { IsCaughtUp system.now.width system.now.rows.now self.old }
        requires stages { KeepsStages self.old }
        ensures ok { OnOk result (IsUnderWay system.now.width system.now.rows.now self.new) }
        ensures stages { OnOk result (HasAllStages system.now.width system.now.rows.now self.new.stages.items) }
        ensures err { IfErr result (StopShows system.now.rows.now) }
    {
        while let Some(unknown) = self.next_unknown(system.width) {
            self.eliminate(system, unknown)?;
        }
        Ok(())
    }
}

/// Returns how many sums eliminate an unknown from these constraints. None where it is in no constraint.
fn sums_with(live: &[Derived], unknown: usize) -> Option<usize>
    ensures some { IfSome result (λ _. IsLeft live.now unknown) }
    ensures none { IfNone result (All (λ (made : Derived). coefficient unknown made.row ≡ pos 0) live.now) }
{
    let mut upper: usize = 0;
    let mut lower: usize = 0;
    for made in live {
        let coefficient = made.row.coefficient(unknown);
        if coefficient > 0 {
            upper += 1;
        } else if coefficient < 0 {
            lower += 1;
        }
    }
    if upper > 0 || lower > 0 {
        Some(upper.saturating_mul(lower))
    } else {
        None
    }
}

/// Returns the numbers of a constraint, the bound first.
fn key_of(alloc: Global, row: &LinRow) -> Result<Vec<i128>, NoMemory>
    ensures { IfOk result (λ key. key.items ≡ row.now.bound ∷ row.now.coefficients) }
{
    let mut key = Vec::with_capacity(alloc, row.coefficients().len() + 1)?;
    key.push(row.bound())?;
    key.extend_from_slice(row.coefficients())?;
    Ok(key)
}

/// Returns a given constraint as one of the first stage. If it is a contradiction, that is the answer.
fn given(alloc: Global, system: &System<'_>, i: usize) -> Result<Derived, Stop>
    requires { i < length system.now.rows.now }
    ensures ok { IfOk result (IsDerived system.now.width system.now.rows.now []) }
    ensures row { (row : Inequality) → IfOk result (λ made. made.row ≡ padded system.now.width (get_or system.now.rows.now i row)) }
    ensures err { IsBegun system.now.rows.now i → IfErr result (StopShows system.now.rows.now) }
{
    let multipliers = unit(alloc, system.rows.len(), i)?;
    let row = system.rows[i].padded(alloc, system.width)?;
    if row.is_contradiction() {
        let shown = Multipliers::new(multipliers);
        return Err(Stop::Answered(LinAnswer::Infeasible(shown)));
    }
    let multipliers = Packed::of(alloc, multipliers.as_slice())?;
    Ok(Derived {
        row: row.try_clone(alloc)?,
        total: row,
        multipliers,
    })
}

/// Returns the multipliers of a given constraint: 1 for itself.
fn unit(alloc: Global, count: usize, i: usize) -> Result<Vec<i128>, NoMemory>
    requires { i < count }
    ensures { IfOk result (λ ms. IsUnit count i ms.items) }
{
    let mut multipliers = vec![in alloc; 0i128; count]?;
    multipliers[i] = 1;
    Ok(multipliers)
}

/// Returns the sum of two constraints that cancels the unknown, whose coefficient is above 0 in one and below 0 in the
/// other.
fn sum_without(
    alloc: Global,
    system: &System<'_>,
    unknown: usize,
    upper: &Derived,
    lower: &Derived,
) -> Result<Derived, Stop>
    requires upper { AreMultipliers system.now.rows.now upper.now.multipliers }
    requires lower { AreMultipliers system.now.rows.now lower.now.multipliers }
    ensures ok { (found : List Inequality) (unknowns : List ℕ) → AreBefore system.now.width system.now.rows.now found unknowns unknown upper.now lower.now → IfOk result (IsDerived system.now.width system.now.rows.now unknowns) }
    ensures sum { (found : List Inequality) (unknowns : List ℕ) → AreBefore system.now.width system.now.rows.now found unknowns unknown upper.now lower.now → IfOk result (λ made. IsSumOf unknown upper.now.row lower.now.row made.row) }
    ensures err { (found : List Inequality) (unknowns : List ℕ) → AreBefore system.now.width system.now.rows.now found unknowns unknown upper.now lower.now → IfErr result (StopShows system.now.rows.now) }
{
    let weights = cancelling(
        upper.total.coefficient(unknown),
        lower.total.coefficient(unknown),
    );
    let count = system.rows.len();
    let (first, second) = (&upper.multipliers, &lower.multipliers);
    let Some(multipliers) = least_mixed(alloc, weights, count, first, second)? else {
        return Err(wide(alloc, &upper.row, &lower.row)?);
    };
    let Some(total) = total_of(alloc, system, &multipliers)? else {
        return Err(wide(alloc, &upper.row, &lower.row)?);
    };
    Ok(Derived {
        row: reduced(alloc, total.try_clone(alloc)?)?,
        total,
        multipliers,
    })
}

/// Returns the combination of the given constraints by these multipliers. None where an intermediate product or sum is
/// not in 128 bits. If it is a contradiction, that is the answer.
fn total_of(
    alloc: Global,
    system: &System<'_>,
    multipliers: &Packed,
) -> Result<Option<LinRow>, Stop>
    requires { AreMultipliers system.now.rows.now multipliers.now }
    ensures ok { IfOk result (λ made. SomeIff made (CombinesWithin system.now.width multipliers.now system.now.rows.now) (combination system.now.width multipliers.now system.now.rows.now)) }
    ensures sound { IfOk result (λ made. IfSome made IsSound) }
    ensures err { IsDue system.now.rows.now multipliers.now → IfErr result (StopShows system.now.rows.now) }
{
    let total = combined(alloc, system.width, multipliers, system.rows)?;
    if let Some(row) = &total {
        if row.is_contradiction() {
            let shown = Multipliers::new(multipliers.numbers(alloc, system.rows.len())?);
            return Err(Stop::Answered(LinAnswer::Infeasible(shown)));
        }
    }
    Ok(total)
}

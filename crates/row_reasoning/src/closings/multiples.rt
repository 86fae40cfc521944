//! Multiples of rows as multiples of formulas.

ghost use Rattle.std.specs.Prelude.{◌≡◌, ℕ, pos, ◌≤ℤ◌, List, length, All, IfOk};
ghost use Rattle.fol.specs.FormulaData.{TermData, FormulaData};
ghost use Rattle.row_reasoning.specs.Sums.{signed};
ghost use Rattle.row_reasoning.specs.Cited.{position_at, ArePositionsWithin, ArePlaced, AreCited};

use crate::rows::{RowOrigin, signed};
use base::memory::NoMemory;
use certificates::certificate::Multiple;
use std::alloc::Global;

// The index of an entry's formula.
fn position_at(positions: &[Option<usize>], entry: usize) -> Option<usize>
    ensures { result ≡ position_at positions.now entry }
{
    match positions.get(entry) {
        Some(position) => *position,
        None => None,
    }
}

/// Returns the multiples of formulas that correspond to the rows with these multipliers. `positions` gives, for the entry
/// of each row whose multiplier is not 0, the index of that entry's formula with the chosen term for each class.
/// `NoMemory` if memory runs out.
pub fn multiples(
    alloc: Global,
    origins: &[RowOrigin],
    multipliers: &[i128],
    positions: &[Option<usize>],
) -> Result<Vec<Multiple>, NoMemory>
    requires one_each { length multipliers.now ≡ length origins.now }
    requires positive { All (λ m. pos 0 ≤ℤ m) multipliers.now }
    requires within { ArePositionsWithin positions.now }
    ensures { (class : TermData → ℕ) (chosen : ℕ → TermData) (ps qs : List FormulaData) → ArePlaced class chosen ps qs origins.now multipliers.now positions.now → IfOk result (λ cited. AreCited class chosen ps qs origins.now multipliers.now cited.items) }
{
    let mut cited = Vec::new(alloc);
    for i in 0..origins.len() {
        let multiplier = multipliers[i];
        if multiplier == 0 {
            continue;
        }
        let Some(position) = position_at(positions, origins[i].entry) else {
            continue;
        };
        cited.push(Multiple {
            entry: position as u32,
            multiplier: signed(origins[i].is_turned, multiplier),
        })?;
    }
    Ok(cited)
}

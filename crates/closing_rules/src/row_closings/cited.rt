//! The entries of the rows that multipliers combine.

ghost use Rattle.std.specs.Prelude.{◌≡◌, ◌≤ℤ◌, pos, length, All, IfOk};
ghost use Rattle.closing_rules.specs.Rewritings.{is_cited, AreBelow, AreCited};

use base::memory::NoMemory;
use row_reasoning::rows::RowOrigin;
use std::alloc::Global;

/// Decides whether an entry is cited.
pub(crate) fn is_cited(cited: &[bool], entry: usize) -> bool
    ensures { result ≡ is_cited cited.now entry }
{
    match cited.get(entry) {
        Some(is) => *is,
        None => false,
    }
}

/// Marks the entries of the rows whose multiplier is not 0, among the given number of entries. `NoMemory` if memory
/// runs out.
pub(crate) fn cited_entries(
    alloc: Global,
    count: usize,
    origins: &[RowOrigin],
    multipliers: &[i128],
) -> Result<Vec<bool>, NoMemory>
    requires one_each { length multipliers.now ≡ length origins.now }
    requires positive { All (λ m. pos 0 ≤ℤ m) multipliers.now }
    requires below { AreBelow origins.now count }
    ensures { IfOk result (λ cited. AreCited origins.now multipliers.now cited.items) }
{
    let mut cited = Vec::new(alloc);
    cited.resize(count, false)?;
    for i in 0..origins.len() {
        let multiplier = multipliers[i];
        if multiplier == 0 {
            continue;
        }
        cited[origins[i].entry] = true;
    }
    Ok(cited)
}

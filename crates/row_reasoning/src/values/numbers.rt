//! The classes of terms that are whole numbers.

ghost use Rattle.std.specs.Prelude.{◌≡◌, ◌≤◌, ℕ, length, Some, cond, nat_eq, OnOk, IfOk};
ghost use Rattle.indexmap.specs.IndexMap.{get};
ghost use Rattle.tableau.specs.PoolBranches.{branch_in, IsOver};
ghost use Rattle.row_reasoning.specs.Numbers.{AreNumberEntries};

use base::memory::NoMemory;
use indexmap::IndexMap;
use std::alloc::Global;
use tableau::branch::PoolBranch;
use tableau::whole_numbers::number_said;
use term_pool::pool::Pool;

/// An entry stating that a term is a whole number.
#[derive(Clone, Copy)]
pub struct NumberEntry {
    /// The number of the entry.
    pub entry: usize,
    /// The number of the term.
    pub term: usize,
}

// Stores the entry for the representative of a class.
fn note(
    found: &mut IndexMap<usize, NumberEntry>,
    name: usize,
    entry: NumberEntry,
) -> Result<(), NoMemory>
    ensures { OnOk result ((k : ℕ) → get nat_eq found.new k ≡ cond (nat_eq name k) (Some entry) (get nat_eq found.old k)) }
{
    found.insert(name, entry)?;
    Ok(())
}

/// The entry for the representative of a class.
pub(crate) fn look_up(found: &IndexMap<usize, NumberEntry>, name: usize) -> Option<NumberEntry>
    ensures { result ≡ get nat_eq found.now name }
{
    match found.get(&name) {
        Some(entry) => Some(*entry),
        None => None,
    }
}

/// Returns, for representatives of classes, an entry stating that a term of the class is a whole number. `names` gives
/// each number of the pool a representative. `NoMemory` if memory runs out.
pub(crate) fn number_entries(
    alloc: Global,
    pool: &Pool,
    branch: &PoolBranch,
    names: &[usize],
) -> Result<IndexMap<usize, NumberEntry>, NoMemory>
    requires over { IsOver pool.now branch.now }
    requires named { length pool.now ≤ length names.now }
    ensures { IfOk result (λ found. AreNumberEntries pool.now (branch_in pool.now branch.now) names.now (get nat_eq found)) }
{
    pool.one_number();
    let mut found = IndexMap::new(alloc);
    for number in 0..branch.len() {
        if let Some(entry) = branch.entry(number) {
            if let Some(term) = number_said(pool, entry.formula) {
                let said = NumberEntry {
                    entry: number,
                    term,
                };
                note(&mut found, names[term], said)?;
            }
        }
    }
    Ok(found)
}

//! Tables from numbers to numbers.

ghost use Rattle.std.specs.Prelude.{◌≡◌, ℕ, Some, cond, nat_eq, OnOk};
ghost use Rattle.indexmap.specs.IndexMap.{get};

use base::memory::NoMemory;
use indexmap::IndexMap;

/// Returns the number that a table has for a key; `None` if it has none.
pub fn look_up(table: &IndexMap<usize, usize>, key: usize) -> Option<usize>
    ensures { result ≡ get nat_eq table.now key }
{
    match table.get(&key) {
        Some(number) => Some(*number),
        None => None,
    }
}

/// Stores a number for a key.
pub fn note(table: &mut IndexMap<usize, usize>, key: usize, number: usize) -> Result<(), NoMemory>
    ensures { OnOk result ((k : ℕ) → get nat_eq table.new k ≡ cond (nat_eq key k) (Some number) (get nat_eq table.old k)) }
{
    table.insert(key, number)?;
    Ok(())
}

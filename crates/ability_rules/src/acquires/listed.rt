//! Sets of listed structs.

ghost use Rattle.std.specs.Prelude.{◌≡◌, ◌↔◌, List, IsTrue, IfOk};
ghost use Rattle.base.specs.declared.types.StructId.{StructId};
ghost use Rattle.ability_rules.specs.Missing.{HasMissing, IsSetOf, has_struct};

use base::memory::NoMemory;
use base::types::StructId;
use program::table::Table;
use std::alloc::Global;

/// The set of some structs.
pub(crate) fn set_of(alloc: Global, structs: &[StructId]) -> Result<Table<StructId, ()>, NoMemory>
    ensures { IfOk result (λ set. IsSetOf set structs.now) }
{
    let mut set = Table::new(alloc);
    for id in structs {
        let copy = id.try_clone(alloc)?;
        set.put(copy, ())?;
    }
    Ok(set)
}

/// Decides whether the set has a struct.
pub(crate) fn has_struct(set: &Table<StructId, ()>, id: &StructId) -> bool
    ensures { result ≡ has_struct set.now id.now }
{
    set.get(id).is_some()
}

/// Decides whether one of these structs is not in the set.
pub(crate) fn has_missing(set: &Table<StructId, ()>, structs: &[StructId]) -> bool
    ensures { (listed : List StructId) → IsSetOf set.now listed → IsTrue result ↔ HasMissing listed structs.now }
{
    for id in structs {
        let is_listed = has_struct(set, id);
        if !is_listed {
            return true;
        }
    }
    false
}

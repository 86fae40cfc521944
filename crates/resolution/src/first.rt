//! Tables that keep the first declaration of each name.

ghost use Rattle.std.specs.Prelude.{◌≡◌, OnOk};
ghost use Rattle.scopes.specs.MemberNames.{first_stays};

use base::memory::NoMemory;
use program::table::Table;
use std::hash::Hash;

/// Appends a declaration, unless its name is taken.
pub fn put_first<K: Eq + Hash + Drop, T: Drop>(
    table: &mut Table<K, T>,
    name: K,
    declaration: T,
) -> Result<(), NoMemory>
    ensures { OnOk result (table.new ≡ first_stays K.eq table.old name declaration) }
{
    let _is_new = table.put(name, declaration)?;
    Ok(())
}

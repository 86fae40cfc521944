//! Names in order, with a look-up of the last index of each.

ghost use Rattle.std.specs.Prelude.{◌≡◌, ◌++◌, ◌∷◌, [], length, OnOk, OnErr};
ghost use Rattle.body_names.specs.NameLists.{IsIndexOf, last_index};

use base::memory::NoMemory;
use base::name::Name;
use indexmap::IndexMap;
use std::alloc::Global;
use std::marker::Model;

/// Names in order, with a map from each name to its last index.
#[derive(Drop)]
pub struct NameList {
    names: Vec<Name>,
    last: IndexMap<Name, usize>,
}

impl Model for NameList {
    ghost use Rattle.std.specs.Prelude.{List, ℕ};
    ghost use Rattle.body_names.specs.NameLists.{IsIndexOf};

    ghost Value = { List (List ℕ) };

    ghost view = { λ l. l.names.items };

    ghost invariant = { λ l. IsIndexOf l.last.entries l.names.items };
}

/// Appends a name and sets its index in the map; `copy` must be equal to the name. After `NoMemory` both are unchanged.
fn push_both(
    names: &mut Vec<Name>,
    last: &mut IndexMap<Name, usize>,
    name: Name,
    copy: Name,
) -> Result<(), NoMemory>
    requires same { copy ≡ name }
    requires index { IsIndexOf last.old.entries names.old.items }
    ensures index { IsIndexOf last.new.entries names.new.items }
    ensures ok { OnOk result (names.new.items ≡ names.old.items ++ name ∷ []) }
    ensures err { OnErr result (names.new.items ≡ names.old.items) }
{
    let position = names.len();
    names.push(name)?;
    if last.insert(copy, position).is_err() {
        names.pop();
        return Err(NoMemory);
    }
    Ok(())
}

impl NameList {
    /// Returns the empty list.
    pub fn new(alloc: Global) -> NameList
        ensures { result ≡ [] }
    {
        NameList {
            names: Vec::new(alloc),
            last: IndexMap::new(alloc),
        }
    }

    /// The number of names.
    pub fn len(&self) -> usize
        ensures { result ≡ length self.now }
    {
        self.names.len()
    }

    /// Returns the names, in order.
    pub fn as_slice(&self) -> &[Name]
        ensures { result.now ≡ self.now }
    {
        self.names.as_slice()
    }

    /// Appends a name. After `NoMemory` the list is unchanged.
    pub fn push(&mut self, alloc: Global, name: Name) -> Result<(), NoMemory>
        ensures ok { OnOk result (self.new ≡ self.old ++ name ∷ []) }
        ensures err { OnErr result (self.new ≡ self.old) }
    {
        let copy = name.try_clone(alloc)?;
        push_both(&mut self.names, &mut self.last, name, copy)
    }

    /// Returns the index of the last name that is equal to this one.
    pub fn last_index(&self, name: &Name) -> Option<usize>
        ensures { result ≡ last_index self.now name.now }
    {
        self.last.get(name).copied()
    }
}

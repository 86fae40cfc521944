//! Tables of declarations.

ghost use Rattle.std.specs.Prelude.{◌≡◌, ◌↔◌, ◌++◌, ◌∷◌, [], if◌then◌else◌, length, None, IsTrue, IfOk, OnOk, OnErr, slice_get};
ghost use Rattle.std.specs.Option.{option_copied, option_map};
ghost use Rattle.std.specs.Map.{keys_of, lookup};
ghost use Rattle.std.specs.List.{position};
ghost use Rattle.std.specs.Map.Iter.{deref_pair};

use base::memory::NoMemory;
use indexmap::IndexMap;
use std::alloc::Global;
use std::hash::Hash;
use std::marker::Model;

/// Declarations by name, in the order in which they are added.
#[derive(Drop)]
pub struct Table<K: Eq + Hash, T> {
    map: IndexMap<K, T>,
}

impl<K: Eq + Hash, T> Model for Table<K, T> {
    ghost use Rattle.std.specs.Prelude.{List};

    ghost Value = { List (K × T) };

    ghost view = { λ t. t.map.entries };
}

impl<K: Eq + Hash + Drop, T: Drop> Table<K, T> {
    /// Returns the empty table.
    pub fn new(alloc: Global) -> Table<K, T>
        ensures { result ≡ [] }
    {
        Table {
            map: IndexMap::new(alloc),
        }
    }

    /// The number of declarations.
    pub fn len(&self) -> usize
        ensures { result ≡ length self.now }
    {
        self.map.len()
    }

    /// Returns the declaration with this name.
    pub fn get(&self, name: &K) -> Option<&T>
        ensures { option_copied result ≡ lookup (K.eq name.now) self.now }
    {
        self.map.get(name)
    }

    /// Returns the number of the declaration with this name: how many are before it.
    pub fn number(&self, name: &K) -> Option<usize>
        ensures { result ≡ position (K.eq name.now) (keys_of self.now) }
    {
        self.map.get_index_of(name)
    }

    /// Returns the name and the declaration with this number.
    pub fn entry(&self, number: usize) -> Option<(&K, &T)>
        ensures { option_map deref_pair result ≡ slice_get self.now number }
    {
        self.map.get_index(number)
    }

    /// Adds a declaration at the end, whose name is new. After `NoMemory` the table is unchanged.
    pub fn push(&mut self, name: K, declaration: T) -> Result<(), NoMemory>
        requires { lookup (K.eq name) self.old ≡ None }
        ensures ok { OnOk result (self.new ≡ self.old ++ (name, declaration) ∷ []) }
        ensures err { OnErr result (self.new ≡ self.old) }
    {
        self.map.insert(name, declaration)?;
        Ok(())
    }

    /// Adds a declaration at the end and returns true if its name is new; else returns false. After `NoMemory` the
    /// table is unchanged.
    pub fn put(&mut self, name: K, declaration: T) -> Result<bool, NoMemory>
        ensures new { IfOk result (λ is_new. IsTrue is_new ↔ (lookup (K.eq name) self.old ≡ None)) }
        ensures put { IfOk result (λ is_new. self.new ≡ (if is_new then self.old ++ (name, declaration) ∷ [] else self.old)) }
        ensures err { OnErr result (self.new ≡ self.old) }
    {
        if self.get(&name).is_some() {
            return Ok(false);
        }
        self.push(name, declaration)?;
        Ok(true)
    }
}

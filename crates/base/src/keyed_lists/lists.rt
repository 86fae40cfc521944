//! Lists of numbers, one for each key.

ghost use Rattle.std.specs.Prelude.{◌≡◌, ℕ, [], ◌∷◌, ◌++◌, cond, nat_eq, OnOk};
ghost use Rattle.base.specs.Lists.{list_in};

use crate::memory::NoMemory;
use indexmap::IndexMap;
use std::alloc::Global;
use std::marker::Model;

#[derive(Drop)]
struct Numbers {
    items: Vec<usize>,
}

impl Model for Numbers {
    ghost use Rattle.std.specs.Prelude.{List, ℕ};

    ghost Value = { List ℕ };

    ghost view = { λ n. n.items.items };
}

impl Numbers {
    fn new(alloc: Global) -> Numbers
        ensures { result ≡ [] }
    {
        Numbers {
            items: Vec::new(alloc),
        }
    }

    fn push(&mut self, number: usize) -> Result<(), NoMemory>
        ensures { OnOk result (self.new ≡ self.old ++ number ∷ []) }
    {
        self.items.push(number)?;
        Ok(())
    }

    fn as_slice(&self) -> &[usize]
        ensures { result.now ≡ self.now }
    {
        self.items.as_slice()
    }
}

/// A list of numbers for each key, empty for a key without numbers.
#[derive(Drop)]
pub struct Lists {
    alloc: Global,
    lists: IndexMap<usize, Numbers>,
}

impl Model for Lists {
    ghost use Rattle.std.specs.Prelude.{List, ℕ};

    ghost Value = { List (ℕ × List ℕ) };

    ghost view = { λ l. l.lists.entries };
}

impl Lists {
    /// Returns empty lists.
    pub fn new(alloc: Global) -> Lists
        ensures { result ≡ [] }
    {
        Lists {
            alloc,
            lists: IndexMap::new(alloc),
        }
    }

    /// Returns the list of a key.
    pub fn at(&self, key: usize) -> &[usize]
        ensures { result.now ≡ list_in self.now key }
    {
        match self.lists.get(&key) {
            Some(list) => list.as_slice(),
            None => &[],
        }
    }

    /// Adds a number at the end of a key's list.
    pub fn add(&mut self, key: usize, number: usize) -> Result<(), NoMemory>
        ensures { OnOk result ((k : ℕ) → list_in self.new k ≡ cond (nat_eq k key) (list_in self.old k ++ number ∷ []) (list_in self.old k)) }
    {
        let list = self.lists.entry(key)?.or_insert(Numbers::new(self.alloc));
        list.push(number)
    }
}

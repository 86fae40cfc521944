//! Sets of numbers that were found.

ghost use Rattle.std.specs.Prelude.{◌≡◌, ◌⊎◌, ◌↔◌, [], ℕ, OnOk, IfOk, IsTrue};
ghost use Rattle.ematching.specs.Numbers.{IsAmong, IsOnce};

use base::memory::NoMemory;
use indexmap::IndexSet;
use std::alloc::Global;
use std::marker::Model;

/// The numbers, in the order in which they were found.
#[derive(Drop)]
pub(crate) struct Found {
    numbers: IndexSet<usize>,
}

impl Model for Found {
    ghost use Rattle.std.specs.Prelude.{List, ℕ};

    ghost Value = { List ℕ };

    ghost view = { λ f. f.numbers.keys };
}

impl Found {
    pub(crate) fn new(alloc: Global) -> Found
        ensures { result ≡ [] }
    {
        Found {
            numbers: IndexSet::new(alloc),
        }
    }

    // Adds a number, unless it is there.
    pub(crate) fn insert(&mut self, number: usize) -> Result<(), NoMemory>
        ensures { OnOk result ((n : ℕ) → IsAmong n self.new ↔ (IsAmong n self.old ⊎ (n ≡ number))) }
    {
        self.numbers.insert(number)?;
        Ok(())
    }

    pub(crate) fn is_empty(&self) -> bool
        ensures { IsTrue result ↔ (self.now ≡ []) }
    {
        self.numbers.is_empty()
    }

    // The numbers as a list.
    pub(crate) fn listed(&self, alloc: Global) -> Result<Vec<usize>, NoMemory>
        ensures are { IfOk result (λ numbers. numbers.items ≡ self.now) }
        ensures once { IfOk result (λ numbers. IsOnce numbers.items) }
    {
        let mut numbers = Vec::new(alloc);
        for number in self.numbers.as_slice() {
            numbers.push(*number)?;
        }
        Ok(numbers)
    }
}

//! Sets of pairs of numbers.

ghost use Rattle.std.specs.Prelude.{◌≡◌, ◌∷◌, [], ◌↔◌, ◌⊎◌, ℕ, Contains, IsTrue, OnOk, IfOk};
ghost use Rattle.base.specs.KeyedPairs.{AreMore};

use crate::memory::NoMemory;
use indexmap::IndexSet;
use std::alloc::Global;
use std::marker::Model;

/// A set of pairs of numbers.
#[derive(Drop)]
pub struct Pairs {
    pairs: IndexSet<(usize, usize)>,
}

impl Model for Pairs {
    ghost use Rattle.std.specs.Prelude.{List, ℕ};

    ghost Value = { List (ℕ × ℕ) };

    ghost view = { λ p. p.pairs.keys };
}

impl Pairs {
    /// Returns the empty set.
    pub fn new(alloc: Global) -> Pairs
        ensures { result ≡ [] }
    {
        Pairs {
            pairs: IndexSet::new(alloc),
        }
    }

    /// Decides whether a pair is in the set.
    pub fn has(&self, left: usize, right: usize) -> bool
        ensures { IsTrue result ↔ Contains self.now (left, right) }
    {
        self.pairs.contains(&(left, right))
    }

    /// Adds a pair, and returns whether it was not in the set before.
    pub fn add(&mut self, left: usize, right: usize) -> Result<bool, NoMemory>
        ensures pairs { OnOk result (AreMore self.old self.new (left, right)) }
        ensures fresh { IfOk result (λ fresh. IsTrue fresh ↔ (Contains self.old (left, right) → ⊥)) }
    {
        Ok(self.pairs.insert((left, right))?)
    }
}

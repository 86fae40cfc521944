//! Sets of numbers by key.

ghost use Rattle.std.specs.Prelude.{◌≡◌, [], OnOk};
ghost use Rattle.axiom_strategy.specs.Keyed.{ArePairsOf, HasOneMore};

use base::keyed_lists::lists::Lists;
use base::keyed_lists::pairs::Pairs;
use base::memory::NoMemory;
use std::alloc::Global;

/// Sets of numbers by key: the list of each key, and the pairs of keys and numbers.
#[derive(Drop)]
pub(crate) struct KeyedSets {
    pub(crate) lists: Lists,
    pub(crate) pairs: Pairs,
}

impl KeyedSets {
    /// No numbers.
    pub(crate) fn new(alloc: Global) -> KeyedSets
        ensures lists { result.lists ≡ [] }
        ensures pairs { result.pairs ≡ [] }
    {
        KeyedSets {
            lists: Lists::new(alloc),
            pairs: Pairs::new(alloc),
        }
    }

    /// Adds a number to the set of a key. `NoMemory` if memory runs out.
    pub(crate) fn add(&mut self, key: usize, number: usize) -> Result<(), NoMemory>
        requires { ArePairsOf self.old.lists self.old.pairs }
        ensures pairs { OnOk result (ArePairsOf self.new.lists self.new.pairs) }
        ensures more { OnOk result (HasOneMore self.old.lists self.new.lists key number) }
    {
        let fresh = self.pairs.add(key, number)?;
        if !fresh {
            return Ok(());
        }
        self.lists.add(key, number)?;
        Ok(())
    }
}

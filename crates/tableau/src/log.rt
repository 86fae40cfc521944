//! A log of the values of numbers: it returns the last value in constant time, and changes can be undone.

ghost use Rattle.std.specs.Prelude.{◌≡◌, ◌<◌, ◌≤◌, [], ◌∷◌, ◌++◌, length, take, OnOk};
ghost use Rattle.tableau.specs.Logs.{value_in, change_of, IsWider};

use base::memory::NoMemory;
use std::alloc::Global;
use std::marker::Model;

/// A change: a number got a value, and had another one before.
#[derive(Clone, Copy, Debug, PartialEq, Eq)]
pub struct Change {
    pub number: usize,
    pub value: usize,
    pub before: Option<usize>,
}

/// The changes, in order.
#[derive(Drop)]
pub struct Log {
    // The value of each number, by index.
    values: Vec<Option<usize>>,
    changes: Vec<Change>,
}

impl Model for Log {
    ghost use Rattle.std.specs.Prelude.{List};
    ghost use Rattle.tableau.specs.Logs.{IsIndexed};
    ghost use Rattle.tableau.specs.declared.log.Change.{Change};

    ghost Value = { List Change };

    ghost view = { λ l. l.changes.items };

    ghost invariant = { λ l. IsIndexed l.changes.items l.values.items };
}

// Extends the values to the numbers below the limit.
fn widen(values: &mut Vec<Option<usize>>, limit: usize) -> Result<(), NoMemory>
    ensures wider { IsWider values.old.items values.new.items }
    ensures long { OnOk result (limit ≤ length values.new.items) }
{
    if values.len() >= limit {
        return Ok(());
    }
    values.resize(limit, None)?;
    Ok(())
}

impl Log {
    /// A log without changes.
    pub fn new(alloc: Global) -> Log
        ensures { result ≡ [] }
    {
        Log {
            values: Vec::new(alloc),
            changes: Vec::new(alloc),
        }
    }

    /// The number of changes.
    pub fn len(&self) -> usize
        ensures { result ≡ length self.now }
    {
        self.changes.len()
    }

    /// The last value of the number; none if it has no value.
    pub fn value(&self, number: usize) -> Option<usize>
        ensures { result ≡ value_in self.now number }
    {
        match self.values.get(number) {
            Some(value) => *value,
            None => None,
        }
    }

    /// Gives a number a value; all numbers are below the limit.
    pub fn write(&mut self, limit: usize, number: usize, value: usize) -> Result<(), NoMemory>
        requires { number < limit }
        ensures { OnOk result (self.new ≡ self.old ++ change_of self.old number value ∷ []) }
    {
        widen(&mut self.values, limit)?;
        let before = self.values[number];
        self.changes.push(Change {
            number,
            value,
            before,
        })?;
        self.values[number] = Some(value);
        Ok(())
    }

    /// Undoes all changes but the first `count`.
    pub fn truncate(&mut self, count: usize)
        ensures { self.new ≡ take count self.old }
    {
        while self.changes.len() > count {
            if let Some(change) = self.changes.pop() {
                self.values[change.number] = change.before;
            }
        }
    }
}

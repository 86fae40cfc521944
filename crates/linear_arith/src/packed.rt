//! Sparse lists of numbers.

ghost use Rattle.std.specs.Prelude.{◌≡◌, ◌∷◌, ◌++◌, [], ◌≤◌, ◌<◌, ◌+◌, ◌^◌, ◌-◌, ℕ, pos, length, replicate, IfOk, OnOk, IsTrue};
ghost use Rattle.linear_arith.specs.Combination.{number};
ghost use Rattle.linear_arith.specs.Packed.{spread, ahead, HasOne};

use base::memory::NoMemory;
use std::alloc::Global;
use std::marker::Model;

/// A number of a list, and the number of zeros between it and the entry before.
#[derive(Clone, Copy, Debug)]
pub struct Entry {
    pub zeros: usize,
    pub number: i128,
}

/// A list of numbers in which zeros take no memory.
#[derive(Drop)]
pub struct Packed {
    entries: Vec<Entry>,
    /// The number of zeros after the last entry.
    zeros: usize,
}

impl Model for Packed {
    ghost use Rattle.std.specs.Prelude.{List, ◌++◌, replicate, pos};
    ghost use Rattle.std.proofs.Common.{ℤ};

    ghost Value = { List ℤ };

    ghost use Rattle.linear_arith.specs.Packed.{spread};

    ghost view = { λ p. spread p.entries.items ++ replicate p.zeros (pos 0) };
}

impl Packed {
    /// Returns the empty list, with capacity for some numbers other than 0.
    pub fn with_room(alloc: Global, room: usize) -> Result<Packed, NoMemory>
        ensures { IfOk result (λ list. list ≡ []) }
    {
        Ok(Packed {
            entries: Vec::with_capacity(alloc, room)?,
            zeros: 0,
        })
    }

    /// Returns the list of these numbers.
    pub fn of(alloc: Global, numbers: &[i128]) -> Result<Packed, NoMemory>
        ensures { IfOk result (λ list. list ≡ numbers.now) }
    {
        let mut list = Packed::with_room(alloc, 0)?;
        for number in numbers {
            list.push(*number)?;
        }
        Ok(list)
    }

    /// Adds a number at the end.
    pub fn push(&mut self, number: i128) -> Result<(), NoMemory>
        requires { length self.old < 2 ^ 64 - 1 }
        ensures { OnOk result (self.new ≡ self.old ++ number ∷ []) }
    {
        if number == 0 {
            self.zeros += 1;
        } else {
            let zeros = self.zeros;
            self.entries.push(Entry { zeros, number })?;
            self.zeros = 0;
        }
        Ok(())
    }

    /// Adds zeros at the end.
    pub fn push_zeros(&mut self, count: usize)
        requires { length self.old + count < 2 ^ 64 }
        ensures { self.new ≡ self.old ++ replicate count (pos 0) }
    {
        self.zeros += count;
    }

    /// The number of entries: the numbers other than 0, and no more.
    pub fn room(&self) -> usize {
        self.entries.len()
    }

    /// Returns an iteration over the list from its first number on.
    pub fn walk(&self) -> Walk<'_>
        ensures { (k : ℕ) → number k (ahead result.zeros result.rest.now) ≡ number k self.now }
    {
        let rest = self.entries.as_slice();
        Walk {
            zeros: zeros_before(rest),
            rest,
        }
    }

    /// Returns true only where 1 is in the list.
    pub fn has_one(&self) -> bool
        ensures { IsTrue result → HasOne self.now }
    {
        for entry in self.entries.iter() {
            if entry.number == 1 {
                return true;
            }
        }
        false
    }

    /// Returns the `count` numbers of the list, including the zeros.
    pub fn numbers(&self, alloc: Global, count: usize) -> Result<Vec<i128>, NoMemory>
        requires { length self.now ≡ count }
        ensures { IfOk result (λ numbers. numbers.items ≡ self.now) }
    {
        let mut numbers = Vec::with_capacity(alloc, count)?;
        let mut walk = self.walk();
        for _ in 0..count {
            numbers.push(walk.next())?;
        }
        Ok(numbers)
    }
}

/// An iteration over a list. After its end a list has only zeros.
#[derive(Clone, Copy)]
pub struct Walk<'a> {
    /// The number of zeros that come next; the greatest number where only zeros come.
    pub zeros: usize,
    /// The remaining entries.
    pub rest: &'a [Entry],
}

impl<'a> Walk<'a> {
    /// Returns the next number.
    pub fn next(&mut self) -> i128
        ensures first { result ≡ number 0 (ahead self.old.zeros self.old.rest.now) }
        ensures rest { (k : ℕ) → number k (ahead self.new.zeros self.new.rest.now) ≡ number (k + 1) (ahead self.old.zeros self.old.rest.now) }
    {
        if self.zeros > 0 {
            self.zeros -= 1;
            return 0;
        }
        match self.rest.split_first() {
            Some((entry, rest)) => {
                self.zeros = zeros_before(rest);
                self.rest = rest;
                entry.number
            }
            None => 0,
        }
    }

    /// Skips some of the zeros that come next.
    pub fn skip(&mut self, count: usize)
        requires { count ≤ self.old.zeros }
        ensures { (k : ℕ) → number k (ahead self.new.zeros self.new.rest.now) ≡ number (k + count) (ahead self.old.zeros self.old.rest.now) }
    {
        self.zeros -= count;
    }
}

/// Returns the number of zeros before the first entry; the greatest number where there is none.
fn zeros_before(rest: &[Entry]) -> usize
    ensures { ahead result rest.now ≡ spread rest.now }
{
    match rest.first() {
        Some(entry) => entry.zeros,
        None => usize::MAX,
    }
}

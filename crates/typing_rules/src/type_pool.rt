//! A pool of types: one list in which each type follows its parts, so that types share equal parts.

ghost use Rattle.std.specs.Prelude.{◌≡◌, ◌<◌, ◌++◌, ◌∷◌, [], length, IfOk, OnOk, OnErr, slice_get, Some};
ghost use Rattle.typing_rules.specs.Pools.{IsBelow, type_at, type_of, types};

use crate::sort::Wrap;
use base::memory::NoMemory;
use base::types::{StructId, Width};
use program::sequence::Sequence;
use std::alloc::Global;
use std::marker::Model;

/// A type without parts. A type parameter is given by its number.
#[derive(Clone, Copy, Debug, PartialEq, Eq)]
pub enum PlainType {
    Bool,
    Int(Width),
    Num,
    Address,
    Signer,
    Param(u32),
}

/// A type whose parts are given by their numbers in the pool.
#[derive(Drop)]
pub enum PoolType {
    Plain(PlainType),
    Made(Wrap, usize),
    Struct(StructId, Sequence<usize>),
    Tuple(Sequence<usize>),
}

/// A pool of types, each with its number.
#[derive(Drop)]
pub struct TypePool {
    entries: Vec<PoolType>,
}

impl Model for TypePool {
    ghost use Rattle.std.specs.Prelude.{List};
    ghost use Rattle.typing_rules.specs.declared.type_pool.PoolType.{PoolType};
    ghost use Rattle.typing_rules.specs.Pools.{AreBelow};

    ghost Value = { List PoolType };

    ghost view = { λ p. p.entries.items };

    ghost invariant = { λ p. AreBelow p.entries.items };
}

impl TypePool {
    /// Returns an empty pool.
    pub fn new(alloc: Global) -> TypePool
        ensures { result ≡ [] }
    {
        TypePool {
            entries: Vec::new(alloc),
        }
    }

    /// The number of types.
    pub fn len(&self) -> usize
        ensures { result ≡ length self.now }
    {
        self.entries.len()
    }

    fn stored(&self, number: usize) -> &PoolType
        requires { number < length self.now }
        ensures entry { slice_get self.now number ≡ Some result.now }
        ensures below { IsBelow number result.now }
    {
        &self.entries[number]
    }

    /// Returns the type with this number, one level deep.
    pub fn entry(&self, number: usize) -> &PoolType
        requires { number < length self.now }
        ensures entry { slice_get self.now number ≡ Some result.now }
        ensures below { IsBelow number result.now }
        ensures one { type_at (types self.now) number ≡ type_of (types self.now) result.now }
    {
        self.stored(number)
    }

    /// Adds a type, whose parts are in the pool already, and returns its number. `NoMemory` leaves the pool unchanged.
    pub fn add(&mut self, entry: PoolType) -> Result<usize, NoMemory>
        requires { IsBelow (length self.old) entry }
        ensures number { IfOk result (λ number. number ≡ length self.old) }
        ensures entries { OnOk result (self.new ≡ self.old ++ entry ∷ []) }
        ensures types { OnOk result (types self.new ≡ types self.old ++ type_of (types self.old) entry ∷ []) }
        ensures err { OnErr result (self.new ≡ self.old) }
    {
        let number = self.entries.len();
        self.entries.push(entry)?;
        Ok(number)
    }
}

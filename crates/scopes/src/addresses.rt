//! The values of named addresses.

ghost use Rattle.std.specs.Prelude.{◌≡◌, IfOk, OnOk, OnErr};
ghost use Rattle.std.specs.FinMap as map;
ghost use Rattle.scopes.specs.NamedAddresses.{standard};

use base::memory::NoMemory;
use base::name::Name;
use std::alloc::Global;
use std::collections::BTreeMap;
use std::marker::Model;

/// The values of named addresses, each below 2^128.
#[derive(Drop)]
pub struct Addresses {
    numbers: BTreeMap<Name, u128>,
}

impl Model for Addresses {
    ghost use Rattle.std.specs.Prelude.{List, ℕ};
    ghost use Rattle.std.specs.Ordering.{nat_cmp};
    ghost use Rattle.std.specs.Cmp.Lexicographic.{slice_cmp};
    ghost use Rattle.std.specs.FinMap as map;
    ghost use Rattle.std.specs.Coded.{coded_ℕ, coded_list};

    ghost Value = { map.FinMap (slice_cmp nat_cmp) ℕ };

    ghost coded = { map.code (coded_list coded_ℕ) coded_ℕ };

    ghost view = { λ a. map.from_entries a.numbers.entries };
}

impl Addresses {
    /// Returns the empty map.
    pub fn new(alloc: Global) -> Addresses
        ensures { result ≡ map.empty }
    {
        Addresses {
            numbers: BTreeMap::new(alloc),
        }
    }

    /// Returns the default values: `std` is 1.
    pub fn standard(alloc: Global) -> Result<Addresses, NoMemory>
        ensures { IfOk result (λ addresses. addresses ≡ standard) }
    {
        let mut addresses = Addresses::new(alloc);
        addresses.define(Name::from_slice(alloc, b"std")?, 1)?;
        Ok(addresses)
    }

    /// Returns the value of a named address, if it is defined.
    pub fn get(&self, name: &Name) -> Option<u128>
        ensures { result ≡ map.get self.now name.now }
    {
        self.numbers.get(name).copied()
    }

    /// Defines a named address, replacing an older value. After `NoMemory` the map is unchanged.
    pub fn define(&mut self, name: Name, number: u128) -> Result<(), NoMemory>
        ensures ok { OnOk result (self.new ≡ map.insert self.old name number) }
        ensures err { OnErr result (self.new ≡ self.old) }
    {
        self.numbers.insert(name, number)?;
        Ok(())
    }
}

//! Lists and maps that contracts name: bytes, the words of a command line, files by name, and the numbers of calls.

ghost use Rattle.std.specs.Prelude.{◌≡◌, ◌↔◌, ◌∷◌, ◌++◌, [], length, IsTrue, OnOk, OnErr, IfOk, Contains};
ghost use Rattle.std.specs.Option.{option_copied};
ghost use Rattle.std.specs.FinMap as map;

use crate::memory::NoMemory;
use crate::name::Name;
use std::alloc::Global;
use std::collections::BTreeMap;
use std::marker::Model;

/// Bytes, such as those of a source file.
#[derive(Drop)]
pub struct Bytes {
    items: Vec<u8>,
}

impl Model for Bytes {
    ghost use Rattle.std.specs.Prelude.{List, ℕ};

    ghost Value = { List ℕ };

    ghost view = { λ b. b.items.items };
}

impl Bytes {
    /// Returns the empty list of bytes.
    pub fn new(alloc: Global) -> Bytes
        ensures { result ≡ [] }
    {
        Bytes {
            items: Vec::new(alloc),
        }
    }

    /// Returns the bytes, in order.
    pub fn as_slice(&self) -> &[u8]
        ensures { result.now ≡ self.now }
    {
        self.items.as_slice()
    }

    /// The number of bytes.
    pub fn len(&self) -> usize
        ensures { result ≡ length self.now }
    {
        self.items.len()
    }

    /// Decides whether there are no bytes.
    pub fn is_empty(&self) -> bool
        ensures { IsTrue result ↔ (self.now ≡ []) }
    {
        self.items.is_empty()
    }

    /// Removes all bytes.
    pub fn clear(&mut self)
        ensures { self.new ≡ [] }
    {
        self.items.clear();
    }

    /// Adds these bytes at the end. After `NoMemory` the bytes are unchanged.
    pub fn extend_from_slice(&mut self, more: &[u8]) -> Result<(), NoMemory>
        ensures ok { OnOk result (self.new ≡ self.old ++ more.now) }
        ensures err { OnErr result (self.new ≡ self.old) }
    {
        self.items.extend_from_slice(more)?;
        Ok(())
    }
}

/// The words of a command line after the program's name, each as the bytes that the system gave.
#[derive(Drop)]
pub struct Words {
    items: Vec<Name>,
}

impl Model for Words {
    ghost use Rattle.std.specs.Prelude.{List, ℕ};

    ghost Value = { List (List ℕ) };

    ghost view = { λ w. w.items.items };
}

impl Words {
    /// Returns the empty list of words.
    pub fn new(alloc: Global) -> Words
        ensures { result ≡ [] }
    {
        Words {
            items: Vec::new(alloc),
        }
    }

    /// Returns the words, in order.
    pub fn as_slice(&self) -> &[Name]
        ensures { result.now ≡ self.now }
    {
        self.items.as_slice()
    }

    /// Adds a word at the end. After `NoMemory` the words are unchanged.
    pub fn push(&mut self, word: Name) -> Result<(), NoMemory>
        ensures ok { OnOk result (self.new ≡ self.old ++ word ∷ []) }
        ensures err { OnErr result (self.new ≡ self.old) }
    {
        self.items.push(word)?;
        Ok(())
    }
}

/// Files by name, each as its bytes.
#[derive(Drop)]
pub struct FileMap {
    files: BTreeMap<Name, Bytes>,
}

impl Model for FileMap {
    ghost use Rattle.std.specs.Prelude.{List, ℕ};
    ghost use Rattle.std.specs.Ordering.{nat_cmp};
    ghost use Rattle.std.specs.Cmp.Lexicographic.{slice_cmp};
    ghost use Rattle.std.specs.FinMap as map;
    ghost use Rattle.std.specs.Coded.{coded_ℕ, coded_list};

    ghost Value = { map.FinMap (slice_cmp nat_cmp) (List ℕ) };

    ghost coded = { map.code (coded_list coded_ℕ) (coded_list coded_ℕ) };

    ghost view = { λ m. map.from_entries m.files.entries };
}

impl FileMap {
    /// Returns the map without files.
    pub fn new(alloc: Global) -> FileMap
        ensures { result ≡ map.empty }
    {
        FileMap {
            files: BTreeMap::new(alloc),
        }
    }

    /// Returns the bytes of the file with this name.
    pub fn get(&self, name: &Name) -> Option<&Bytes>
        ensures { option_copied result ≡ map.get self.now name.now }
    {
        self.files.get(name)
    }

    /// Adds a file to the map, and replaces an older one with its name. After `NoMemory` the map is unchanged.
    pub fn insert(&mut self, name: Name, bytes: Bytes) -> Result<(), NoMemory>
        ensures ok { OnOk result (self.new ≡ map.insert self.old name bytes) }
        ensures err { OnErr result (self.new ≡ self.old) }
    {
        self.files.insert(name, bytes)?;
        Ok(())
    }
}

/// The numbers of calls of an object, each counted from 1.
#[derive(Drop)]
pub struct Calls {
    numbers: Vec<u64>,
}

impl Model for Calls {
    ghost use Rattle.std.specs.Prelude.{List, ℕ};

    ghost Value = { List ℕ };

    ghost view = { λ c. c.numbers.items };
}

impl Calls {
    /// Returns the empty list.
    pub fn new(alloc: Global) -> Calls
        ensures { result ≡ [] }
    {
        Calls {
            numbers: Vec::new(alloc),
        }
    }

    /// Returns the calls with these numbers.
    pub fn from_slice(alloc: Global, numbers: &[u64]) -> Result<Calls, NoMemory>
        ensures { IfOk result (λ calls. calls ≡ numbers.now) }
    {
        Ok(Calls {
            numbers: Vec::from_slice(alloc, numbers)?,
        })
    }

    /// Decides whether the call with this number is in the list.
    pub fn contains(&self, number: u64) -> bool
        ensures { IsTrue result ↔ Contains self.now number }
    {
        self.numbers.contains(&number)
    }
}

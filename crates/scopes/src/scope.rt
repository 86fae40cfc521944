//! The names that are in scope.

ghost use Rattle.std.specs.Prelude.{◌≡◌, ◌≤◌, ◌++◌, ◌∷◌, [], length, take, OnOk, OnErr};
ghost use Rattle.scopes.specs.Scopes.{innermost};

use base::memory::NoMemory;
use base::name::Name;
use std::alloc::Global;
use std::marker::Model;

/// A name with its meaning, a number.
#[derive(Drop)]
pub struct InScope {
    pub name: Name,
    pub number: usize,
}

/// The names in scope, from the outermost to the innermost.
#[derive(Drop)]
pub struct Scope {
    names: Vec<InScope>,
}

impl Model for Scope {
    ghost use Rattle.std.specs.Prelude.{List};
    ghost use Rattle.scopes.specs.declared.scope.InScope.{InScope};

    ghost Value = { List InScope };

    ghost view = { λ s. s.names.items };
}

impl Scope {
    /// Returns the empty scope.
    pub fn new(alloc: Global) -> Scope
        ensures { result ≡ [] }
    {
        Scope {
            names: Vec::new(alloc),
        }
    }

    /// The names, from the outermost to the innermost.
    pub fn as_slice(&self) -> &[InScope]
        ensures { result.now ≡ self.now }
    {
        self.names.as_slice()
    }

    /// The number of names.
    pub fn len(&self) -> usize
        ensures { result ≡ length self.now }
    {
        self.names.len()
    }

    /// Adds a name as the innermost one. After `NoMemory` the scope is unchanged.
    pub fn enter(&mut self, name: InScope) -> Result<(), NoMemory>
        ensures ok { OnOk result (self.new ≡ self.old ++ name ∷ []) }
        ensures err { OnErr result (self.new ≡ self.old) }
    {
        self.names.push(name)?;
        Ok(())
    }

    /// Removes all names but the first `count`, the number of names when a block was entered.
    pub fn leave(&mut self, count: usize)
        requires { count ≤ length self.old }
        ensures { self.new ≡ take count self.old }
    {
        self.names.truncate(count);
    }

    /// Returns the number of the innermost name that is equal to this one.
    pub fn find(&self, name: &Name) -> Option<usize>
        ensures { result ≡ innermost self.now name.now }
    {
        find_in(self.names.as_slice(), name)
    }
}

fn find_in(names: &[InScope], name: &Name) -> Option<usize>
    ensures { result ≡ innermost names.now name.now }
{
    let mut count = names.len();
    while count > 0 {
        count -= 1;
        if names[count].name == *name {
            return Some(names[count].number);
        }
    }
    None
}

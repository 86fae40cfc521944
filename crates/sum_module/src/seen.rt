//! The names of the functions before a member.

ghost use Rattle.std.specs.Prelude.{◌≡◌, ℕ, List, [], ◌++◌, OnOk};
ghost use Rattle.sum_module.specs.Members.{name_of_form};
ghost use Rattle.base.specs.Names.{IsSetOf, has};

use base::memory::NoMemory;
use base::name::Name;
use std::alloc::Global;
use std::collections::BTreeSet;
use std::marker::Model;
use syntax_tree::source::SourceForm;

/// The names of the functions before a member.
#[derive(Drop)]
pub struct Seen {
    names: BTreeSet<Name>,
}

impl Model for Seen {
    ghost use Rattle.std.specs.Prelude.{List, ℕ};
    ghost use Rattle.std.specs.BTreeSet.{BTreeSet};

    ghost Value = { BTreeSet (List ℕ) };

    ghost view = { λ s. s.names };
}

impl Seen {
    /// Returns no names.
    pub fn new(alloc: Global) -> Seen
        ensures { IsSetOf result [] }
    {
        Seen {
            names: BTreeSet::new(alloc),
        }
    }

    /// Decides whether a function of this name comes before.
    pub fn contains(&self, name: &Name) -> bool
        ensures { result ≡ has self.now name.now }
    {
        self.names.contains(name)
    }

    /// Adds the name of the member, if it is a function.
    pub fn add(&mut self, alloc: Global, form: &SourceForm) -> Result<(), NoMemory>
        ensures { OnOk result ((names : List (List ℕ)) → IsSetOf self.old names → IsSetOf self.new (names ++ name_of_form form.now)) }
    {
        if let SourceForm::Function(function) = form {
            self.names.insert(function.name.text.try_clone(alloc)?)?;
        }
        Ok(())
    }
}

//! The names around a spec expression: parameters, results, `let`s, and the other names in scope in its clause.

ghost use Rattle.std.specs.Prelude.{◌≡◌, ◌++◌, ◌∷◌, [], OnOk, OnErr, option_and_then, slice_get};
ghost use Rattle.body_names.specs.NameLists.{last_index};
ghost use Rattle.body_names.specs.OuterNames.{outer_meaning};

use crate::spec::name_list::NameList;
use base::memory::NoMemory;
use base::name::Name;
use program::spec::SpecName;
use std::alloc::Global;
use std::marker::Model;

/// A name with its meaning.
#[derive(Drop)]
pub struct OuterName {
    pub name: Name,
    pub meaning: SpecName,
}

/// The names around a spec expression, the innermost last: results, then parameters, locals, variables of a schema or
/// fields, and then the `let`s written before the expression. The caller decides which of them are in scope in the
/// clause, and the names of the results.
#[derive(Drop)]
pub struct Outer {
    names: NameList,
    /// The meaning of each name.
    meanings: Vec<SpecName>,
}

impl Model for Outer {
    ghost use Rattle.std.specs.Prelude.{List, ◌≡◌, length};
    ghost use Rattle.body_names.specs.OuterNames.{with_meanings};
    ghost use Rattle.body_names.specs.declared.spec.outer.OuterName.{OuterName};

    ghost Value = { List OuterName };

    ghost view = { λ s. with_meanings s.names s.meanings.items };

    ghost invariant = { λ s. length s.names ≡ length s.meanings.items };
}

/// Appends a name and its meaning. After `NoMemory` both lists are unchanged.
fn push_both(
    alloc: Global,
    names: &mut NameList,
    meanings: &mut Vec<SpecName>,
    name: Name,
    meaning: SpecName,
) -> Result<(), NoMemory>
    ensures names { OnOk result (names.new ≡ names.old ++ name ∷ []) }
    ensures meanings { OnOk result (meanings.new.items ≡ meanings.old.items ++ meaning ∷ []) }
    ensures err { OnErr result ((names.new ≡ names.old) × (meanings.new.items ≡ meanings.old.items)) }
{
    meanings.push(meaning)?;
    if names.push(alloc, name).is_err() {
        meanings.pop();
        return Err(NoMemory);
    }
    Ok(())
}

impl Outer {
    /// Returns the empty list of names.
    pub fn new(alloc: Global) -> Outer
        ensures { result ≡ [] }
    {
        Outer {
            names: NameList::new(alloc),
            meanings: Vec::new(alloc),
        }
    }

    /// Adds a name as the innermost one. After `NoMemory` the names are unchanged.
    pub fn enter(&mut self, alloc: Global, name: OuterName) -> Result<(), NoMemory>
        ensures ok { OnOk result (self.new ≡ self.old ++ name ∷ []) }
        ensures err { OnErr result (self.new ≡ self.old) }
    {
        let OuterName { name, meaning } = name;
        push_both(alloc, &mut self.names, &mut self.meanings, name, meaning)?;
        Ok(())
    }

    /// Returns the meaning of a name: that of the innermost equal name.
    #[tactic(auto, using(crate::proofs::NameListLaws::meaning_found))]
    pub fn find(&self, name: &Name) -> Option<SpecName>
        ensures { result ≡ outer_meaning self.now name.now }
    {
        find_in(&self.names, self.meanings.as_slice(), name)
    }
}

/// Returns the meaning at the last index of a name.
fn find_in(names: &NameList, meanings: &[SpecName], name: &Name) -> Option<SpecName>
    ensures { result ≡ option_and_then (slice_get meanings.now) (last_index names.now name.now) }
{
    match names.last_index(name) {
        None => None,
        Some(span) => meanings.get(span).copied(),
    }
}

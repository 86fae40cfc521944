//! The structs in types, and the modules that declare them.

ghost use Rattle.std.specs.Prelude.{◌≡◌, [], ◌∷◌, ◌++◌, map, OnOk};
ghost use Rattle.std.specs.List.{flat_map};
ghost use Rattle.base.specs.TypeData.{types_of};
ghost use Rattle.program.specs.Homes.{struct_home};
ghost use Rattle.declaration_cycles.specs.Naming.{homes_in, homes_in_all, homes_in_fields, homes_in_maybe, homes_in_names, structs_in, structs_in_all, structs_of_fields};

use base::memory::NoMemory;
use base::types::{StructId, TypeList, TypeNode, TypeTerm};
use program::boxed::Boxed;
use program::code::NamedFields;
use program::declaration::TypedName;
use program::home::Home;
use std::alloc::Global;
use std::marker::Model;

/// Names of structs, in order.
#[derive(Drop)]
pub(crate) struct Structs<'a> {
    items: Vec<&'a StructId>,
}

impl<'a> Model for Structs<'a> {
    ghost use Rattle.std.specs.Prelude.{List, map};
    ghost use Rattle.base.specs.declared.types.StructId.{StructId};

    ghost Value = { List StructId };

    ghost view = { λ s. map (λ id. id.now) s.items.items };
}

impl<'a> Structs<'a> {
    /// Returns the empty list of names.
    pub(crate) fn new(alloc: Global) -> Structs<'a>
        ensures { result ≡ [] }
    {
        Structs {
            items: Vec::new(alloc),
        }
    }

    /// Returns the names, in order.
    pub(crate) fn as_slice(&self) -> &[&'a StructId]
        ensures { map (λ id. id.now) result.now ≡ self.now }
    {
        self.items.as_slice()
    }

    fn push(&mut self, id: &'a StructId) -> Result<(), NoMemory>
        ensures { OnOk result (self.new ≡ self.old ++ id.now ∷ []) }
    {
        self.items.push(id)?;
        Ok(())
    }
}

/// Appends the structs in a type.
#[cycle(push_structs)]
pub(crate) fn push_structs<'a>(term: &'a TypeTerm, into: &mut Structs<'a>) -> Result<(), NoMemory>
    ensures { OnOk result (into.new ≡ into.old ++ structs_in term.now) }
{
    match &term.node {
        TypeNode::Vector(item) => push_structs(item, into),
        TypeNode::Struct(id, arguments) => {
            into.push(id)?;
            push_structs_all(&arguments.items, into)
        }
        TypeNode::Shared(target) => push_structs(target, into),
        TypeNode::Mutable(target) => push_structs(target, into),
        TypeNode::Tuple(items) => push_structs_all(&items.items, into),
        _ => Ok(()),
    }
}

#[cycle(push_structs)]
fn push_structs_all<'a>(terms: &'a [TypeTerm], into: &mut Structs<'a>) -> Result<(), NoMemory>
    ensures { OnOk result (into.new ≡ into.old ++ structs_in_all (types_of terms.now)) }
{
    for term in terms {
        push_structs(term, into)?;
    }
    Ok(())
}

/// Appends the structs in the types of fields.
pub(crate) fn push_structs_of_fields<'a>(
    fields: &'a [TypedName],
    into: &mut Structs<'a>,
) -> Result<(), NoMemory>
    ensures { OnOk result (into.new ≡ into.old ++ flat_map (λ f. structs_in f.annotation) fields.now) }
{
    for field in fields {
        push_structs(&field.annotation, into)?;
    }
    Ok(())
}

/// Appends the modules of structs.
pub(crate) fn push_struct_homes<'a>(
    structs: &[&'a StructId],
    into: &mut Vec<Home<'a>>,
) -> Result<(), NoMemory>
    ensures { OnOk result (into.new.items ≡ into.old.items ++ map struct_home (map (λ id. id.now) structs.now)) }
{
    for id in structs {
        into.push(Home::of_struct(id))?;
    }
    Ok(())
}

/// Appends the modules of the structs in a type.
pub(crate) fn push_homes<'a>(
    alloc: Global,
    term: &'a TypeTerm,
    into: &mut Vec<Home<'a>>,
) -> Result<(), NoMemory>
    ensures { OnOk result (into.new.items ≡ into.old.items ++ homes_in term.now) }
{
    let mut structs = Structs::new(alloc);
    push_structs(term, &mut structs)?;
    push_struct_homes(structs.as_slice(), into)
}

/// Appends the modules of the structs in types.
pub(crate) fn push_homes_all<'a>(
    alloc: Global,
    terms: &'a TypeList,
    into: &mut Vec<Home<'a>>,
) -> Result<(), NoMemory>
    ensures { OnOk result (into.new.items ≡ into.old.items ++ homes_in_all terms.now) }
{
    let mut structs = Structs::new(alloc);
    push_structs_all(&terms.items, &mut structs)?;
    push_struct_homes(structs.as_slice(), into)
}

/// Appends the modules of the structs in an optional type.
pub(crate) fn push_homes_maybe<'a>(
    alloc: Global,
    term: &'a Option<Boxed<TypeTerm>>,
    into: &mut Vec<Home<'a>>,
) -> Result<(), NoMemory>
    ensures { OnOk result (into.new.items ≡ into.old.items ++ homes_in_maybe term.now) }
{
    match term {
        Some(term) => push_homes(alloc, term.get(), into),
        None => Ok(()),
    }
}

/// Appends the modules of the structs in the types of names.
pub(crate) fn push_homes_of_names<'a>(
    alloc: Global,
    names: &'a [TypedName],
    into: &mut Vec<Home<'a>>,
) -> Result<(), NoMemory>
    ensures { OnOk result (into.new.items ≡ into.old.items ++ homes_in_names names.now) }
{
    for name in names {
        push_homes(alloc, &name.annotation, into)?;
    }
    Ok(())
}

/// Appends the modules of a struct and of the structs in its type arguments.
pub(crate) fn push_homes_of_fields<'a>(
    alloc: Global,
    fields: &'a NamedFields,
    into: &mut Vec<Home<'a>>,
) -> Result<(), NoMemory>
    ensures { OnOk result (into.new.items ≡ into.old.items ++ homes_in_fields fields.now) }
{
    into.push(Home::of_struct(&fields.owner))?;
    push_homes_all(alloc, &fields.types, into)
}

//! The constraints of packing and unpacking.

ghost use Rattle.std.specs.Prelude.{◌≡◌, ◌++◌, ◌∷◌, [], OnOk, Some};
ghost use Rattle.std.specs.Map.{lookup};
ghost use Rattle.std.specs.List.{list_all};
ghost use Rattle.std.specs.Option.{option_copied};
ghost use Rattle.base.specs.Names.{is_one_of};
ghost use Rattle.base.specs.TypeData.{list_of_types};
ghost use Rattle.program.specs.Same.{same_struct};
ghost use Rattle.typing_rules.specs.CodeConstraints.{field_constraint, field_constraints, named_constraints, names_each_once, struct_constraints};
ghost use Rattle.typing_rules.specs.Rules.{field_named};
ghost use Rattle.type_constraints.specs.Seen.{seen_all};

use crate::code::arguments::add_arguments;
use crate::code::signature::struct_arity;
use crate::constraint::{Constraint, TypeForm, add, add_unless};
use base::memory::NoMemory;
use base::name::Name;
use base::types::{StructId, TypeTerm};
use program::code::NamedFields;
use program::declaration::{Struct, TypedName};
use program::table::Table;

/// Decides whether the word is one of these names.
fn is_named(names: &[Name], word: &Name) -> bool
    ensures { result ≡ is_one_of names.now word.now }
{
    names.iter().any(|name| word == name)
}

/// Decides whether each field is named.
fn are_named(fields: &[TypedName], names: &[Name]) -> bool
    ensures { result ≡ list_all (λ f. is_one_of names.now f.name) fields.now }
{
    for field in fields {
        if !is_named(names, &field.name) {
            return false;
        }
    }
    true
}

/// Decides whether each field is named exactly once.
pub fn names_each_once(fields: &[TypedName], names: &[Name]) -> bool
    ensures { result ≡ names_each_once fields.now names.now }
{
    names.len() == fields.len() && are_named(fields, names)
}

/// The type of the field of this name.
pub fn field_named<'a>(fields: &'a [TypedName], name: &Name) -> Option<&'a TypeTerm>
    ensures { option_copied result ≡ field_named fields.now name.now }
{
    for field in fields {
        if *name == field.name {
            return Some(&field.annotation);
        }
    }
    None
}

/// Adds the constraint of a part for a field, whose type parameters are so many type variables from `first` on.
fn add_field<'a>(
    constraints: &mut Vec<Constraint<'a>>,
    first: usize,
    count: usize,
    part: usize,
    found: Option<&'a TypeTerm>,
) -> Result<(), NoMemory>
    ensures { OnOk result (seen_all constraints.new.items ≡ seen_all constraints.old.items ++ field_constraint first count part (option_copied found.entry) ∷ []) }
{
    match found {
        Some(of) => add(
            constraints,
            &[Constraint::Has(part, TypeForm::Declared(of, first, count))],
        ),
        None => add(constraints, &[Constraint::Barred]),
    }
}

/// Adds the constraints of the parts: each has the type of the field whose name is given with it.
fn add_fields<'a>(
    constraints: &mut Vec<Constraint<'a>>,
    first: usize,
    owner: &'a Struct,
    names: &[Name],
    parts: &[usize],
) -> Result<(), NoMemory>
    ensures { OnOk result (seen_all constraints.new.items ≡ seen_all constraints.old.items ++ field_constraints first owner.now names.now parts.now) }
{
    let count = owner.type_parameters.as_slice().len();
    let mut left = parts;
    for name in names {
        let Some((part, more)) = left.split_first() else {
            return add(constraints, &[Constraint::Barred]);
        };
        let found = field_named(owner.fields.as_slice(), name);
        add_field(constraints, first, count, *part, found)?;
        left = more;
    }
    Ok(())
}

/// Adds the constraints of a packed or unpacked struct that is declared.
fn add_found<'a>(
    constraints: &mut Vec<Constraint<'a>>,
    first: usize,
    owner: &'a Struct,
    names: &[Name],
    parts: &[usize],
) -> Result<(), NoMemory>
    ensures { OnOk result (seen_all constraints.new.items ≡ seen_all constraints.old.items ++ named_constraints first (Some owner.now) names.now parts.now) }
{
    add_unless(constraints, names_each_once(owner.fields.as_slice(), names))?;
    add_fields(constraints, first, owner, names, parts)
}

/// Adds the constraints of the named fields.
fn add_named<'a>(
    constraints: &mut Vec<Constraint<'a>>,
    structs: &'a Table<StructId, Struct>,
    first: usize,
    owner: &StructId,
    names: &[Name],
    parts: &[usize],
) -> Result<(), NoMemory>
    ensures { OnOk result (seen_all constraints.new.items ≡ seen_all constraints.old.items ++ named_constraints first (lookup (same_struct owner.now) structs.now) names.now parts.now) }
{
    match structs.get(owner) {
        Some(found) => add_found(constraints, first, found, names, parts),
        None => add(constraints, &[Constraint::Barred]),
    }
}

/// Adds the constraints of the packed or unpacked struct with the number `variable`, whose type arguments are the type
/// variables from `first` on.
pub fn add_struct<'a>(
    constraints: &mut Vec<Constraint<'a>>,
    structs: &'a Table<StructId, Struct>,
    variable: usize,
    first: usize,
    named: &'a NamedFields,
    parts: &[usize],
) -> Result<(), NoMemory>
    ensures { OnOk result (seen_all constraints.new.items ≡ seen_all constraints.old.items ++ struct_constraints structs.now variable first named.now.owner (list_of_types named.now.types) named.now.fields parts.now) }
{
    let owner = &named.owner;
    let arity = struct_arity(structs, owner);
    add_arguments(constraints, structs, first, arity, &named.types.items)?;
    add_named(
        constraints,
        structs,
        first,
        owner,
        named.fields.as_slice(),
        parts,
    )?;
    let form = TypeForm::Applied(owner, first, arity);
    add(constraints, &[Constraint::Has(variable, form)])
}

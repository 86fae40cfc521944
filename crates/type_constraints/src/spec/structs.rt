//! Structs that are packed in specifications.

ghost use Rattle.std.specs.Prelude.{◌≡◌, ◌++◌, ◌∷◌, [], OnOk, Some};
ghost use Rattle.std.specs.Map.{lookup};
ghost use Rattle.std.specs.Option.{option_copied};
ghost use Rattle.base.specs.TypeData.{list_of_types};
ghost use Rattle.program.specs.Same.{same_struct};
ghost use Rattle.typing_rules.specs.SpecConstraints.{spec_field_constraint, spec_field_constraints, spec_named_constraints};
ghost use Rattle.type_constraints.specs.Packs.{pack_constraints};
ghost use Rattle.type_constraints.specs.Seen.{seen_all};
ghost use Rattle.type_constraints.specs.SpecSettings.{setting_of};

use crate::code::signature::struct_arity;
use crate::code::structs::{field_named, names_each_once};
use crate::constraint::{Constraint, TypeForm, add, add_unless};
use crate::spec::arguments::add_arguments;
use crate::spec::setting::SpecSetting;
use base::memory::NoMemory;
use base::name::Name;
use base::types::{StructId, TypeTerm};
use program::code::NamedFields;
use program::declaration::Struct;

/// Adds the constraint of a part for a field, whose type parameters are so many type variables from `first` on.
fn add_field<'a>(
    constraints: &mut Vec<Constraint<'a>>,
    first: usize,
    count: usize,
    part: usize,
    found: Option<&'a TypeTerm>,
) -> Result<(), NoMemory>
    ensures { OnOk result (seen_all constraints.new.items ≡ seen_all constraints.old.items ++ spec_field_constraint first count part (option_copied found.entry) ∷ []) }
{
    match found {
        Some(of) => add(
            constraints,
            &[Constraint::Has(part, TypeForm::DeclaredRead(of, first, count))],
        ),
        None => add(constraints, &[Constraint::Barred]),
    }
}

/// Adds the constraints of the parts: each has the type of the field whose name is given with it.
fn add_fields<'a>(
    constraints: &mut Vec<Constraint<'a>>,
    first: usize,
    owner: &'a Struct,
    names: &[Name],
    parts: &[usize],
) -> Result<(), NoMemory>
    ensures { OnOk result (seen_all constraints.new.items ≡ seen_all constraints.old.items ++ spec_field_constraints first owner.now names.now parts.now) }
{
    let count = owner.type_parameters.as_slice().len();
    let mut left = parts;
    for name in names {
        let Some((part, more)) = left.split_first() else {
            return add(constraints, &[Constraint::Barred]);
        };
        let found = field_named(owner.fields.as_slice(), name);
        add_field(constraints, first, count, *part, found)?;
        left = more;
    }
    Ok(())
}

/// Adds the constraints of a packed struct that is declared.
fn add_found<'a>(
    constraints: &mut Vec<Constraint<'a>>,
    first: usize,
    owner: &'a Struct,
    names: &[Name],
    parts: &[usize],
) -> Result<(), NoMemory>
    ensures { OnOk result (seen_all constraints.new.items ≡ seen_all constraints.old.items ++ spec_named_constraints first (Some owner.now) names.now parts.now) }
{
    add_unless(constraints, names_each_once(owner.fields.as_slice(), names))?;
    add_fields(constraints, first, owner, names, parts)
}

/// Adds the constraints of the named fields.
fn add_named<'a>(
    constraints: &mut Vec<Constraint<'a>>,
    setting: SpecSetting<'a>,
    first: usize,
    owner: &StructId,
    names: &[Name],
    parts: &[usize],
) -> Result<(), NoMemory>
    ensures { OnOk result (seen_all constraints.new.items ≡ seen_all constraints.old.items ++ spec_named_constraints first (lookup (same_struct owner.now) setting.entry.program.now.structs) names.now parts.now) }
{
    match setting.program.structs.get(owner) {
        Some(found) => add_found(constraints, first, found, names, parts),
        None => add(constraints, &[Constraint::Barred]),
    }
}

/// Adds the constraints of the packed struct with the number `variable`, whose type arguments are the type variables from
/// `first` on. After `NoMemory` some of them may be there.
pub fn add_pack<'a>(
    constraints: &mut Vec<Constraint<'a>>,
    setting: SpecSetting<'a>,
    variable: usize,
    first: usize,
    named: &'a NamedFields,
    parts: &[usize],
) -> Result<(), NoMemory>
    ensures { OnOk result (seen_all constraints.new.items ≡ seen_all constraints.old.items ++ pack_constraints (setting_of setting.entry) variable first named.now.owner (list_of_types named.now.types) named.now.fields parts.now) }
{
    let arity = struct_arity(&setting.program.structs, &named.owner);
    add_arguments(constraints, setting, first, arity, &named.types.items)?;
    let names = named.fields.as_slice();
    add_named(constraints, setting, first, &named.owner, names, parts)?;
    let form = TypeForm::Applied(&named.owner, first, arity);
    add(constraints, &[Constraint::Has(variable, form)])
}

//! The constraints of spec expressions without parts.

ghost use Rattle.std.specs.Prelude.{◌≡◌, ◌++◌, OnOk};
ghost use Rattle.std.specs.Map.{lookup};
ghost use Rattle.std.specs.Option.{option_map};
ghost use Rattle.typing_rules.specs.CodeConstraints.{same_constant};
ghost use Rattle.typing_rules.specs.Instances.{spec_type};
ghost use Rattle.typing_rules.specs.SpecConstraints.{name_constraints, named_type, spec_leaf_constraints};
ghost use Rattle.type_constraints.specs.Seen.{read_data, seen_all};
ghost use Rattle.type_constraints.specs.SpecSettings.{setting_of};

use crate::constraint::{Constraint, PlainType, ReadType, TypeForm, add, has};
use crate::spec::names::named_type;
use crate::spec::setting::SpecSetting;
use crate::spec::variables::variable_of_name;
use base::memory::NoMemory;
use program::program::ConstantId;
use program::spec::{SpecLeaf, SpecName};

/// Adds the constraint that a type variable has this type, or, where there is none, one that no typing meets.
fn add_named<'a>(
    constraints: &mut Vec<Constraint<'a>>,
    variable: usize,
    of: Option<ReadType<'a>>,
) -> Result<(), NoMemory>
    ensures { OnOk result (seen_all constraints.new.items ≡ seen_all constraints.old.items ++ named_type variable (option_map read_data of.entry)) }
{
    match of {
        Some(found) => add(
            constraints,
            &[Constraint::Has(variable, TypeForm::Read(found))],
        ),
        None => add(constraints, &[Constraint::Barred]),
    }
}

fn add_name<'a>(
    constraints: &mut Vec<Constraint<'a>>,
    setting: SpecSetting<'a>,
    number: usize,
    name: SpecName,
) -> Result<(), NoMemory>
    ensures { OnOk result (seen_all constraints.new.items ≡ seen_all constraints.old.items ++ name_constraints (setting_of setting.entry) number name) }
{
    match name {
        SpecName::Quantified(variable) => {
            let at = variable_of_name(setting, variable)?;
            add(constraints, &[Constraint::Same(number, at)])
        }
        _ => add_named(
            constraints,
            number,
            named_type(setting.names, setting.allowed, name),
        ),
    }
}

fn add_constant<'a>(
    constraints: &mut Vec<Constraint<'a>>,
    setting: SpecSetting<'a>,
    variable: usize,
    id: &ConstantId,
) -> Result<(), NoMemory>
    ensures { OnOk result (seen_all constraints.new.items ≡ seen_all constraints.old.items ++ named_type variable (option_map (λ d. spec_type d.annotation) (lookup (same_constant id.now) setting.entry.program.now.constants))) }
{
    match setting.program.constants.get(id) {
        Some(found) => {
            let form = TypeForm::Read(ReadType::Read(&found.annotation));
            add(constraints, &[Constraint::Has(variable, form)])
        }
        None => add(constraints, &[Constraint::Barred]),
    }
}

/// Adds the constraints of the leaf with the number `variable`.
pub fn add_leaf<'a>(
    constraints: &mut Vec<Constraint<'a>>,
    setting: SpecSetting<'a>,
    variable: usize,
    leaf: &'a SpecLeaf,
) -> Result<(), NoMemory>
    ensures { OnOk result (seen_all constraints.new.items ≡ seen_all constraints.old.items ++ spec_leaf_constraints (setting_of setting.entry) variable leaf.now) }
{
    match leaf {
        SpecLeaf::Number(_) | SpecLeaf::Max(_) => add(
            constraints,
            &[has(variable, PlainType::Num)],
        ),
        SpecLeaf::Truth(_) => add(constraints, &[has(variable, PlainType::Bool)]),
        SpecLeaf::Address(_) => add(constraints, &[has(variable, PlainType::Address)]),
        SpecLeaf::Name(name) => add_name(constraints, setting, variable, *name),
        SpecLeaf::Constant(id) => add_constant(constraints, setting, variable, id.get()),
    }
}

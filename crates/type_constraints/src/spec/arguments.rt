//! The constraints of the type arguments of a spec expression.

ghost use Rattle.std.specs.Prelude.{◌≡◌, ◌==◌, ◌++◌, ◌∷◌, [], length, OnOk, if◌then◌else◌};
ghost use Rattle.typing_rules.specs.CodeConstraints.{has};
ghost use Rattle.typing_rules.specs.Constraint as D;
ghost use Rattle.typing_rules.specs.ProperTypes.{is_proper_value};
ghost use Rattle.typing_rules.specs.SpecConstraints.{has_spec_arguments, read_there, spec_argument_constraints};
ghost use Rattle.type_constraints.specs.Seen.{seen_all};
ghost use Rattle.type_constraints.specs.SpecSettings.{owner_types, setting_of};

use crate::code::arguments::add_values;
use crate::code::written::is_proper_value;
use crate::constraint::{Constraint, TypeForm, add};
use crate::spec::names::read_there;
use crate::spec::setting::SpecSetting;
use base::memory::NoMemory;
use base::types::TypeTerm;

/// Adds the constraint of a written type argument.
fn add_written<'a>(
    constraints: &mut Vec<Constraint<'a>>,
    setting: SpecSetting<'a>,
    variable: usize,
    of: &'a TypeTerm,
) -> Result<(), NoMemory>
    ensures { OnOk result (seen_all constraints.new.items ≡ seen_all constraints.old.items ++ (if is_proper_value setting.entry.program.now.structs of.now then has variable (read_there (owner_types setting.entry.names.owner) of.now) ∷ [] else D.Barred ∷ [])) }
{
    if is_proper_value(&setting.program.structs, of) {
        let form = TypeForm::Read(read_there(setting.names.owner, of));
        add(constraints, &[Constraint::Has(variable, form)])
    } else {
        add(constraints, &[Constraint::Barred])
    }
}

/// Adds the constraints of written type arguments, for the type variables from `first` on.
fn add_all_written<'a>(
    constraints: &mut Vec<Constraint<'a>>,
    setting: SpecSetting<'a>,
    first: usize,
    types: &'a [TypeTerm],
) -> Result<(), NoMemory>
    ensures { OnOk result (seen_all constraints.new.items ≡ seen_all constraints.old.items ++ has_spec_arguments (setting_of setting.entry) first types.now) }
{
    let mut at = first;
    for of in types {
        add_written(constraints, setting, at, of)?;
        at = at.checked_add(1).ok_or(NoMemory)?;
    }
    Ok(())
}

/// Adds the constraints of written type arguments: either all are written, or none is.
fn add_given<'a>(
    constraints: &mut Vec<Constraint<'a>>,
    setting: SpecSetting<'a>,
    first: usize,
    arity: usize,
    types: &'a [TypeTerm],
) -> Result<(), NoMemory>
    ensures { OnOk result (seen_all constraints.new.items ≡ seen_all constraints.old.items ++ (if (length types.now == 0) then [] else (if (length types.now == arity) then has_spec_arguments (setting_of setting.entry) first types.now else D.Barred ∷ []))) }
{
    if types.len() == 0 {
        Ok(())
    } else if types.len() == arity {
        add_all_written(constraints, setting, first, types)
    } else {
        add(constraints, &[Constraint::Barred])
    }
}

/// Adds the constraints of the `arity` type arguments of an expression, which are the type variables from `first` on.
pub fn add_arguments<'a>(
    constraints: &mut Vec<Constraint<'a>>,
    setting: SpecSetting<'a>,
    first: usize,
    arity: usize,
    types: &'a [TypeTerm],
) -> Result<(), NoMemory>
    ensures { OnOk result (seen_all constraints.new.items ≡ seen_all constraints.old.items ++ spec_argument_constraints (setting_of setting.entry) first arity types.now) }
{
    add_values(constraints, first, arity)?;
    add_given(constraints, setting, first, arity, types)
}

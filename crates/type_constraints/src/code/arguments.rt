//! The constraints of the type arguments of a node.

ghost use Rattle.std.specs.Prelude.{◌≡◌, ◌==◌, ◌++◌, ◌∷◌, [], length, OnOk, if◌then◌else◌};
ghost use Rattle.typing_rules.specs.CodeConstraints.{argument_constraints, each_of, has, has_arguments, variables_from};
ghost use Rattle.typing_rules.specs.Constraint as D;
ghost use Rattle.typing_rules.specs.ProperTypes.{is_proper_value};
ghost use Rattle.typing_rules.specs.declared.sort.Sort.TheVariants.{Value};
ghost use Rattle.type_constraints.specs.Seen.{seen_all};

use crate::code::written::is_proper_value;
use crate::constraint::{Constraint, TypeForm, add};
use base::memory::NoMemory;
use base::types::{StructId, TypeTerm};
use program::declaration::Struct;
use program::table::Table;
use typing_rules::sort::Sort;

/// Adds the constraints that so many type variables, from `first` on, are neither references nor tuples.
pub fn add_values<'a>(
    constraints: &mut Vec<Constraint<'a>>,
    first: usize,
    count: usize,
) -> Result<(), NoMemory>
    ensures { OnOk result (seen_all constraints.new.items ≡ seen_all constraints.old.items ++ each_of Value (variables_from first count)) }
{
    let mut at = first;
    let mut left = count;
    while left > 0 {
        add(constraints, &[Constraint::IsOf(Sort::Value, at)])?;
        at = at.checked_add(1).ok_or(NoMemory)?;
        left -= 1;
    }
    Ok(())
}

/// Adds the constraint of a written type argument.
fn add_written<'a>(
    constraints: &mut Vec<Constraint<'a>>,
    structs: &Table<StructId, Struct>,
    variable: usize,
    of: &'a TypeTerm,
) -> Result<(), NoMemory>
    ensures { OnOk result (seen_all constraints.new.items ≡ seen_all constraints.old.items ++ (if is_proper_value structs.now of.now then has variable of.now ∷ [] else D.Barred ∷ [])) }
{
    if is_proper_value(structs, of) {
        add(
            constraints,
            &[Constraint::Has(variable, TypeForm::Written(of))],
        )
    } else {
        add(constraints, &[Constraint::Barred])
    }
}

/// Adds the constraints of written type arguments, for the type variables from `first` on.
fn add_all_written<'a>(
    constraints: &mut Vec<Constraint<'a>>,
    structs: &Table<StructId, Struct>,
    first: usize,
    types: &'a [TypeTerm],
) -> Result<(), NoMemory>
    ensures { OnOk result (seen_all constraints.new.items ≡ seen_all constraints.old.items ++ has_arguments structs.now first types.now) }
{
    let mut at = first;
    for of in types {
        add_written(constraints, structs, at, of)?;
        at = at.checked_add(1).ok_or(NoMemory)?;
    }
    Ok(())
}

/// Adds the constraints of written type arguments: either all are written, or none is.
fn add_given<'a>(
    constraints: &mut Vec<Constraint<'a>>,
    structs: &Table<StructId, Struct>,
    first: usize,
    arity: usize,
    types: &'a [TypeTerm],
) -> Result<(), NoMemory>
    ensures { OnOk result (seen_all constraints.new.items ≡ seen_all constraints.old.items ++ (if (length types.now == 0) then [] else (if (length types.now == arity) then has_arguments structs.now first types.now else D.Barred ∷ []))) }
{
    if types.len() == 0 {
        Ok(())
    } else if types.len() == arity {
        add_all_written(constraints, structs, first, types)
    } else {
        add(constraints, &[Constraint::Barred])
    }
}

/// Adds the constraints of the `arity` type arguments of a node, which are the type variables from `first` on.
pub fn add_arguments<'a>(
    constraints: &mut Vec<Constraint<'a>>,
    structs: &Table<StructId, Struct>,
    first: usize,
    arity: usize,
    types: &'a [TypeTerm],
) -> Result<(), NoMemory>
    ensures { OnOk result (seen_all constraints.new.items ≡ seen_all constraints.old.items ++ argument_constraints structs.now first arity types.now) }
{
    add_values(constraints, first, arity)?;
    add_given(constraints, structs, first, arity, types)
}

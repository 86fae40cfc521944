//! The constraints of nodes with a list of parts.

ghost use Rattle.std.specs.Prelude.{◌≡◌, ◌++◌, ◌∷◌, [], OnOk, map};
ghost use Rattle.typing_rules.specs.CodeConstraints.{argument_constraints, block_constraints, each_of, last_constraints, many_constraints};
ghost use Rattle.typing_rules.specs.Constraint as D;
ghost use Rattle.typing_rules.specs.declared.sort.Sort.TheVariants.{Single};
ghost use Rattle.typing_rules.specs.declared.sort.Wrap.TheVariants.{Vector as vector_of};
ghost use Rattle.type_constraints.specs.Seen.{seen_all};
ghost use Rattle.type_constraints.specs.CodeSettings.{setting_of};

use crate::code::arguments::add_arguments;
use crate::code::call::add_call;
use crate::code::setting::CodeSetting;
use crate::code::structs::add_struct;
use crate::constraint::{Constraint, PlainType, add, has};
use base::memory::NoMemory;
use base::types::{StructId, TypeTerm};
use program::code::CodeMany;
use program::declaration::Struct;
use program::table::Table;
use typing_rules::sort::{Sort, Wrap};

/// Adds the constraints that each part has the type of the one type argument.
fn add_items<'a>(
    constraints: &mut Vec<Constraint<'a>>,
    first: usize,
    parts: &[usize],
) -> Result<(), NoMemory>
    ensures { OnOk result (seen_all constraints.new.items ≡ seen_all constraints.old.items ++ map (λ p. D.Same p first) parts.now) }
{
    for part in parts {
        add(constraints, &[Constraint::Same(*part, first)])?;
    }
    Ok(())
}

/// Adds the constraints of a vector literal.
fn add_vector<'a>(
    constraints: &mut Vec<Constraint<'a>>,
    structs: &Table<StructId, Struct>,
    variable: usize,
    first: usize,
    types: &'a [TypeTerm],
    parts: &[usize],
) -> Result<(), NoMemory>
    ensures { OnOk result (seen_all constraints.new.items ≡ seen_all constraints.old.items ++ ((argument_constraints structs.now first 1 types.now ++ map (λ p. D.Same p first) parts.now) ++ D.MadeOf variable vector_of first ∷ [])) }
{
    add_arguments(constraints, structs, first, 1, types)?;
    add_items(constraints, first, parts)?;
    add(
        constraints,
        &[Constraint::MadeOf(variable, Wrap::Vector, first)],
    )
}

/// Adds the constraints that no part is a tuple.
fn add_singles<'a>(constraints: &mut Vec<Constraint<'a>>, parts: &[usize]) -> Result<(), NoMemory>
    ensures { OnOk result (seen_all constraints.new.items ≡ seen_all constraints.old.items ++ each_of Single parts.now) }
{
    for part in parts {
        add(constraints, &[Constraint::IsOf(Sort::Single, *part)])?;
    }
    Ok(())
}

fn add_tuple<'a>(
    constraints: &mut Vec<Constraint<'a>>,
    variable: usize,
    parts: &'a [usize],
) -> Result<(), NoMemory>
    ensures { OnOk result (seen_all constraints.new.items ≡ seen_all constraints.old.items ++ (each_of Single parts.now ++ D.TupleOf variable parts.now ∷ [])) }
{
    add_singles(constraints, parts)?;
    add(constraints, &[Constraint::TupleOf(variable, parts)])
}

/// Adds the constraint of a block with a value: it has the type of its last part.
fn add_last<'a>(
    constraints: &mut Vec<Constraint<'a>>,
    variable: usize,
    parts: &[usize],
) -> Result<(), NoMemory>
    ensures { OnOk result (seen_all constraints.new.items ≡ seen_all constraints.old.items ++ last_constraints variable parts.now) }
{
    let Some((first, rest)) = parts.split_first() else {
        return add(constraints, &[Constraint::Barred]);
    };
    let mut last = *first;
    for part in rest {
        last = *part;
    }
    add(constraints, &[Constraint::Same(variable, last)])
}

fn add_block<'a>(
    constraints: &mut Vec<Constraint<'a>>,
    variable: usize,
    has_value: bool,
    parts: &[usize],
) -> Result<(), NoMemory>
    ensures { OnOk result (seen_all constraints.new.items ≡ seen_all constraints.old.items ++ block_constraints variable has_value parts.now) }
{
    if has_value {
        add_last(constraints, variable, parts)
    } else {
        add(constraints, &[has(variable, PlainType::Nothing)])
    }
}

/// Adds the constraints of the node with a list of parts and the number `variable`, whose type arguments are the type
/// variables from `first` on.
#[tactic(auto, using(crate::proofs::Arguments::listed_types))]
pub fn add_many<'a>(
    constraints: &mut Vec<Constraint<'a>>,
    setting: CodeSetting<'a>,
    variable: usize,
    first: usize,
    form: &'a CodeMany,
    parts: &'a [usize],
) -> Result<(), NoMemory>
    ensures { OnOk result (seen_all constraints.new.items ≡ seen_all constraints.old.items ++ many_constraints (setting_of setting.entry) variable first form.now parts.now) }
{
    let structs = &setting.program.structs;
    match form {
        CodeMany::Call(call) => {
            add_call(
                constraints,
                setting.program,
                variable,
                first,
                call.get(),
                parts,
            )
        }
        CodeMany::Vector(types) => {
            add_vector(constraints, structs, variable, first, &types.items, parts)
        }
        CodeMany::Pack(named) => add_struct(
            constraints,
            structs,
            variable,
            first,
            named.get(),
            parts,
        ),
        CodeMany::Unpack(named) => add_struct(
            constraints,
            structs,
            variable,
            first,
            named.get(),
            parts,
        ),
        CodeMany::Tuple | CodeMany::TuplePattern => add_tuple(constraints, variable, parts),
        CodeMany::Block { has_value } => add_block(constraints, variable, *has_value, parts),
    }
}

//! The constraints of nodes without parts.

ghost use Rattle.std.specs.Prelude.{◌≡◌, ◌++◌, OnOk, Some};
ghost use Rattle.std.specs.Option.{option_copied};
ghost use Rattle.std.specs.Map.{lookup};
ghost use Rattle.base.specs.TypeData.{TupleType, types_of};
ghost use Rattle.typing_rules.specs.CodeConstraints.{constant_constraints, is_unit, leaf_constraints, number_constraints, same_constant};
ghost use Rattle.type_constraints.specs.Seen.{seen_all};
ghost use Rattle.type_constraints.specs.CodeSettings.{setting_of};
ghost use Rattle.typing_rules.specs.Jumps.{is_in_loop};

use crate::code::setting::{CodeSetting, variable_of_local};
use crate::constraint::{Constraint, PlainType, TypeForm, add, add_unless, has};
use base::memory::NoMemory;
use base::types::{TypeNode, TypeTerm, Width};
use program::code::CodeLeaf;
use program::program::ConstantId;
use typing_rules::sort::Sort;

fn add_number<'a>(
    constraints: &mut Vec<Constraint<'a>>,
    variable: usize,
    width: Option<Width>,
) -> Result<(), NoMemory>
    ensures { OnOk result (seen_all constraints.new.items ≡ seen_all constraints.old.items ++ number_constraints variable width) }
{
    match width {
        Some(found) => add(constraints, &[has(variable, PlainType::Int(found))]),
        None => add(constraints, &[Constraint::IsOf(Sort::Integer, variable)]),
    }
}

fn add_constant<'a>(
    constraints: &mut Vec<Constraint<'a>>,
    setting: CodeSetting<'a>,
    variable: usize,
    id: &ConstantId,
) -> Result<(), NoMemory>
    ensures { OnOk result (seen_all constraints.new.items ≡ seen_all constraints.old.items ++ constant_constraints variable (lookup (same_constant id.now) setting.entry.program.now.constants)) }
{
    match setting.program.constants.get(id) {
        Some(found) => {
            let form = TypeForm::Written(&found.annotation);
            add(constraints, &[Constraint::Has(variable, form)])
        }
        None => add(constraints, &[Constraint::Barred]),
    }
}

fn is_empty(types: &[TypeTerm]) -> bool
    ensures { result ≡ is_unit (Some (TupleType (types_of types.now))) }
{
    match types.split_first() {
        Some(_) => false,
        None => true,
    }
}

/// Decides whether the result is `()`.
fn is_unit<'a>(result_type: Option<&'a TypeTerm>) -> bool
    ensures { result ≡ is_unit (option_copied result_type.entry) }
{
    let Some(term) = result_type else {
        return false;
    };
    match &term.node {
        TypeNode::Tuple(types) => is_empty(&types.items),
        _ => false,
    }
}

/// Adds the constraints of the leaf with the number `variable`, which is in the body of a loop if `in_loop` is true.
pub fn add_leaf<'a>(
    constraints: &mut Vec<Constraint<'a>>,
    setting: CodeSetting<'a>,
    variable: usize,
    in_loop: bool,
    leaf: &'a CodeLeaf,
) -> Result<(), NoMemory>
    requires { in_loop ≡ is_in_loop setting.body.now.nodes variable }
    ensures { OnOk result (seen_all constraints.new.items ≡ seen_all constraints.old.items ++ leaf_constraints (setting_of setting.entry) variable leaf.now) }
{
    match leaf {
        CodeLeaf::Number(number) => add_number(constraints, variable, number.width),
        CodeLeaf::Truth(_) => add(constraints, &[has(variable, PlainType::Bool)]),
        CodeLeaf::Address(_) => add(constraints, &[has(variable, PlainType::Address)]),
        CodeLeaf::Local(_, local) => {
            let at = variable_of_local(setting, *local)?;
            add(constraints, &[Constraint::Same(variable, at)])
        }
        CodeLeaf::Constant(id) => add_constant(constraints, setting, variable, id.get()),
        CodeLeaf::Return => add_unless(constraints, is_unit(setting.result)),
        CodeLeaf::Break | CodeLeaf::Continue => add_unless(constraints, in_loop),
        CodeLeaf::Bind(local) => {
            let at = variable_of_local(setting, *local)?;
            add(
                constraints,
                &[
                    Constraint::IsOf(Sort::Single, at),
                    Constraint::Same(variable, at),
                ],
            )
        }
        CodeLeaf::Ignore => Ok(()),
    }
}

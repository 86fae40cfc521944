//! The nodes of code, read one after another.

ghost use Rattle.std.specs.Prelude.{◌≤◌, ◌++◌, List, IfOk, length, take};
ghost use Rattle.typing_rules.specs.Constraint as D;
ghost use Rattle.typing_rules.specs.CodeConstraints.{constraints_from};
ghost use Rattle.typing_rules.specs.CodeSystems.{values_from};
ghost use Rattle.unification.specs.Slots.{Fits};
ghost use Rattle.type_constraints.specs.CodeSettings.{setting_of};
ghost use Rattle.type_solver.specs.Plain.{ArePlain};
ghost use Rattle.type_solver.specs.Equations.{reading_of};
ghost use Rattle.type_solver.specs.Walking.{IsWalk};

use crate::code_systems::counts::{first_of_all, next_first};
use crate::emit::Tables;
use crate::walk::{Progress, read_step};
use base::memory::NoMemory;
use std::alloc::Global;
use type_constraints::code::body::{node_constraints, tables_of};
use type_constraints::code::setting::CodeSetting;
use type_constraints::code::whole::value_constraints;
use unification::type_variables::slots::Slot;

/// Reads the first so many nodes of a function's body, over the first `variables` type variables.
pub fn read_nodes<'a>(
    alloc: Global,
    tables: Tables<'a>,
    setting: CodeSetting<'a>,
    slots: &mut Vec<Slot<'a>>,
    before: Progress,
    variables: usize,
    count: usize,
) -> Result<Progress, NoMemory>
    requires types { ArePlain tables.types.now }
    requires fits { Fits slots.old.items }
    requires variables { variables ≤ length slots.old.items }
    requires count { count ≤ length setting.body.now.nodes }
    ensures walk { IfOk result (λ after. (steps : List (List D.Constraint)) → IsWalk (reading_of tables.entry) variables steps slots.old.items before → IsWalk (reading_of tables.entry) variables (steps ++ take count (constraints_from (setting_of setting.entry) 0 setting.entry.body.now.nodes)) slots.new.items after) }
    ensures fits { IfOk result (λ after. Fits slots.new.items) }
    ensures variables { IfOk result (λ after. variables ≤ length slots.new.items) }
{
    let loops = tables_of(alloc, setting.body)?;
    let mut progress = before;
    let mut first = first_of_all(setting)?;
    for variable in 0..count {
        let constraints = node_constraints(alloc, setting, &loops, variable, first)?;
        progress = read_step(alloc, tables, slots, progress, variables, &constraints)?;
        first = next_first(setting, variable, first)?;
    }
    Ok(progress)
}

/// Reads the nodes of a constant's value, over the first `variables` type variables.
pub fn read_values<'a>(
    alloc: Global,
    tables: Tables<'a>,
    setting: CodeSetting<'a>,
    slots: &mut Vec<Slot<'a>>,
    before: Progress,
    variables: usize,
) -> Result<Progress, NoMemory>
    requires types { ArePlain tables.types.now }
    requires fits { Fits slots.old.items }
    requires variables { variables ≤ length slots.old.items }
    ensures walk { IfOk result (λ after. (steps : List (List D.Constraint)) → IsWalk (reading_of tables.entry) variables steps slots.old.items before → IsWalk (reading_of tables.entry) variables (steps ++ values_from (setting_of setting.entry) 0 setting.entry.body.now.nodes) slots.new.items after) }
    ensures fits { IfOk result (λ after. Fits slots.new.items) }
    ensures variables { IfOk result (λ after. variables ≤ length slots.new.items) }
{
    let loops = tables_of(alloc, setting.body)?;
    let mut progress = before;
    let mut first = first_of_all(setting)?;
    for index in 0..setting.body.len() {
        let constraints = value_constraints(alloc, setting, &loops, index, first)?;
        progress = read_step(alloc, tables, slots, progress, variables, &constraints)?;
        first = next_first(setting, index, first)?;
    }
    Ok(progress)
}

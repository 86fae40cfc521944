//! The steps of a system of specifications.

ghost use Rattle.std.specs.Prelude.{◌≤◌, ◌∷◌, ◌++◌, [], List, IfOk, length};
ghost use Rattle.type_constraints.specs.Seen.{seen_all};
ghost use Rattle.type_constraints.specs.SpecSettings.{setting_of};
ghost use Rattle.type_constraints.specs.SpecKnown.{AreVariables};
ghost use Rattle.typing_rules.specs.Constraint as D;
ghost use Rattle.typing_rules.specs.SpecConstraints.{declared_variables, spec_constraints_from};
ghost use Rattle.unification.specs.Slots.{Typing, Fits, Meets};
ghost use Rattle.type_solver.specs.Plain.{ArePlain};
ghost use Rattle.type_solver.specs.Walking.{IsWalk};
ghost use Rattle.type_solver.specs.Equations.{reading_of};

use crate::emit::Tables;
use crate::walk::{Progress, read_step, start};
use base::memory::NoMemory;
use std::alloc::Global;
use type_constraints::constraint::Constraint;
use type_constraints::spec::node::node_constraints;
use type_constraints::spec::quantified::declared_variables;
use type_constraints::spec::setting::SpecSetting;
use unification::type_variables::slots::Slot;

/// Reads the nodes of a spec expression, given the type variables of their first type arguments.
fn read_nodes<'a>(
    alloc: Global,
    tables: Tables<'a>,
    slots: &mut Vec<Slot<'a>>,
    setting: SpecSetting<'a>,
    firsts: &[usize],
    variables: usize,
    before: Progress,
) -> Result<Progress, NoMemory>
    requires types { ArePlain tables.types.now }
    requires fits { Fits slots.old.items }
    requires variables { variables ≤ length slots.old.items }
    requires len { length setting.body.now.nodes ≤ length firsts.now }
    requires firsts { AreVariables (setting_of setting) firsts.now }
    ensures walk { IfOk result (λ after. (steps : List (List D.Constraint)) → IsWalk (reading_of tables.entry) variables steps slots.old.items before → IsWalk (reading_of tables.entry) variables (steps ++ spec_constraints_from (setting_of setting.entry) 0 setting.entry.body.now.nodes) slots.new.items after) }
    ensures fits { IfOk result (λ after. Fits slots.new.items) }
    ensures variables { IfOk result (λ after. variables ≤ length slots.new.items) }
{
    let mut progress = before;
    for index in 0..setting.body.len() {
        let constraints = node_constraints(alloc, setting, index, firsts[index])?;
        progress = read_step(alloc, tables, slots, progress, variables, &constraints)?;
    }
    Ok(progress)
}

/// Reads a system of a spec expression whose type variables are all open, with these constraints on the whole.
pub fn read_steps<'a>(
    alloc: Global,
    tables: Tables<'a>,
    slots: &mut Vec<Slot<'a>>,
    setting: SpecSetting<'a>,
    firsts: &[usize],
    whole: &[Constraint<'a>],
) -> Result<Progress, NoMemory>
    requires types { ArePlain tables.types.now }
    requires fits { Fits slots.old.items }
    requires start { (t : Typing) → Meets slots.old.items t }
    requires len { length setting.body.now.nodes ≤ length firsts.now }
    requires firsts { AreVariables (setting_of setting) firsts.now }
    ensures { IfOk result (IsWalk (reading_of tables.entry) (length slots.old.items) (declared_variables (setting_of setting.entry) ∷ (spec_constraints_from (setting_of setting.entry) 0 setting.entry.body.now.nodes ++ seen_all whole.now ∷ [])) slots.new.items) }
{
    let variables = slots.len();
    let begun = start(slots);
    let declared = declared_variables(alloc, setting)?;
    let first = read_step(alloc, tables, slots, begun, variables, &declared)?;
    let nodes = read_nodes(alloc, tables, slots, setting, firsts, variables, first)?;
    read_step(alloc, tables, slots, nodes, variables, whole)
}

//! Reads functions and constants as systems of constraints.

ghost use Rattle.std.specs.Prelude.{◌≡◌, ◌∷◌, ◌++◌, [], suc, IfOk, length, take};
ghost use Rattle.typing_rules.specs.CodeConstraints.{constraints_from};
ghost use Rattle.typing_rules.specs.CodeSystems.{constant_setting, constant_system, function_setting, function_system, values_from};
ghost use Rattle.typing_rules.specs.FieldBars.{first_steps};
ghost use Rattle.unification.specs.Slots.{Typing, Fits, Meets};
ghost use Rattle.type_constraints.specs.Seen.{seen, seen_all};
ghost use Rattle.type_constraints.specs.CodeSettings.{setting_of};
ghost use Rattle.type_solver.specs.Plain.{ArePlain};
ghost use Rattle.type_solver.specs.Equations.{reading_of};
ghost use Rattle.type_solver.specs.Walking.{IsWalk};
ghost use Rattle.type_solver.specs.Walked.{Walked};

use crate::code_systems::counts::variable_count;
use crate::code_systems::nodes::{read_nodes, read_values};
use crate::emit::Tables;
use crate::plain::PlainTypes;
use crate::walk::{Progress, read_step, start};
use base::memory::NoMemory;
use program::declaration::{Constant, Function};
use program::program::Program;
use std::alloc::Global;
use type_constraints::code::setting::CodeSetting;
use type_constraints::code::whole::{is_constant_type, returned, signature_constraints, valued};
use type_constraints::constraint::{Constraint, add_unless};
use unification::type_variables::open::open_slots;
use unification::type_variables::slots::Slot;

/// The number of type variables, what is known of their types after some steps, and how far reading went.
#[derive(Drop)]
pub struct Walk<'a> {
    pub variables: usize,
    pub slots: Vec<Slot<'a>>,
    pub progress: Progress,
}

/// The setting of the body of a function.
pub fn function_setting<'a>(program: &'a Program, function: &'a Function) -> CodeSetting<'a>
    ensures { setting_of result ≡ function_setting program.now function.now }
{
    CodeSetting {
        program,
        body: &function.body,
        locals: function.locals.as_slice().len(),
        result: Some(&function.result),
    }
}

/// The setting of the value of a constant.
pub fn constant_setting<'a>(program: &'a Program, constant: &'a Constant) -> CodeSetting<'a>
    ensures { setting_of result ≡ constant_setting program.now constant.now }
{
    CodeSetting {
        program,
        body: &constant.value,
        locals: 0,
        result: None,
    }
}

/// Reads the step of the declared types and the first so many nodes, and also the whole if there are fewer nodes.
fn read_body<'a>(
    alloc: Global,
    tables: Tables<'a>,
    setting: CodeSetting<'a>,
    slots: &mut Vec<Slot<'a>>,
    declared: &[Constraint<'a>],
    whole: Constraint<'a>,
    count: usize,
) -> Result<Progress, NoMemory>
    requires types { ArePlain tables.types.now }
    requires fits { Fits slots.old.items }
    requires start { (t : Typing) → Meets slots.old.items t }
    ensures { IfOk result (IsWalk (reading_of tables.entry) (length slots.old.items) (take (suc count) (seen_all declared.now ∷ (constraints_from (setting_of setting.entry) 0 setting.entry.body.now.nodes ++ (seen whole.entry ∷ []) ∷ []))) slots.new.items) }
{
    let variables = slots.len();
    let begun = start(slots);
    let first = read_step(alloc, tables, slots, begun, variables, declared)?;
    let nodes = setting.body.len();
    if count <= nodes {
        return read_nodes(alloc, tables, setting, slots, first, variables, count);
    }
    let last = read_nodes(alloc, tables, setting, slots, first, variables, nodes)?;
    read_step(alloc, tables, slots, last, variables, &[whole])
}

/// Reads the step of the declared type, the nodes and the whole of a constant.
fn read_value<'a>(
    alloc: Global,
    tables: Tables<'a>,
    setting: CodeSetting<'a>,
    slots: &mut Vec<Slot<'a>>,
    declared: &[Constraint<'a>],
    whole: Constraint<'a>,
) -> Result<Progress, NoMemory>
    requires types { ArePlain tables.types.now }
    requires fits { Fits slots.old.items }
    requires start { (t : Typing) → Meets slots.old.items t }
    ensures { IfOk result (IsWalk (reading_of tables.entry) (length slots.old.items) (seen_all declared.now ∷ (values_from (setting_of setting.entry) 0 setting.entry.body.now.nodes ++ (seen whole.entry ∷ []) ∷ [])) slots.new.items) }
{
    let variables = slots.len();
    let begun = start(slots);
    let first = read_step(alloc, tables, slots, begun, variables, declared)?;
    let last = read_values(alloc, tables, setting, slots, first, variables)?;
    read_step(alloc, tables, slots, last, variables, &[whole])
}

/// Reads the step of a function's declared types and its first so many nodes, and also the whole if there are fewer
/// nodes.
pub fn read_first_nodes<'a>(
    alloc: Global,
    types: &'a PlainTypes,
    program: &'a Program,
    function: &'a Function,
    count: usize,
) -> Result<Walk<'a>, NoMemory>
    requires { ArePlain types.now }
    ensures walked { IfOk result (λ walk. Walked (first_steps (function_system program.now function.now) (suc count)) walk.slots.items walk.progress) }
    ensures variables { IfOk result (λ walk. walk.variables ≡ (function_system program.now function.now).variables) }
{
    let tables = Tables {
        structs: &program.structs,
        types,
        is_spec: false,
    };
    let setting = function_setting(program, function);
    let declared = signature_constraints(alloc, setting, function)?;
    let whole = returned(&function.body, &function.result);
    let variables = variable_count(setting)?;
    let mut slots = open_slots(alloc, variables)?;
    let progress = read_body(alloc, tables, setting, &mut slots, &declared, whole, count)?;
    Ok(Walk {
        variables,
        slots,
        progress,
    })
}

/// Reads a function. `NoMemory` also where the number of its nodes is the greatest `usize`, as only with more nodes
/// than any memory holds.
pub fn read_function<'a>(
    alloc: Global,
    types: &'a PlainTypes,
    program: &'a Program,
    function: &'a Function,
) -> Result<Walk<'a>, NoMemory>
    requires { ArePlain types.now }
    ensures walked { IfOk result (λ walk. Walked (function_system program.now function.now) walk.slots.items walk.progress) }
    ensures variables { IfOk result (λ walk. walk.variables ≡ (function_system program.now function.now).variables) }
{
    match function.body.len().checked_add(1) {
        Some(count) => read_first_nodes(alloc, types, program, function, count),
        None => Err(NoMemory),
    }
}

/// Reads a constant.
pub fn read_constant<'a>(
    alloc: Global,
    types: &'a PlainTypes,
    program: &'a Program,
    constant: &'a Constant,
) -> Result<Walk<'a>, NoMemory>
    requires { ArePlain types.now }
    ensures walked { IfOk result (λ walk. Walked (constant_system program.now constant.now) walk.slots.items walk.progress) }
    ensures variables { IfOk result (λ walk. walk.variables ≡ (constant_system program.now constant.now).variables) }
{
    let tables = Tables {
        structs: &program.structs,
        types,
        is_spec: false,
    };
    let setting = constant_setting(program, constant);
    let mut declared = Vec::new(alloc);
    add_unless(&mut declared, is_constant_type(&constant.annotation))?;
    let whole = valued(&constant.value, &constant.annotation);
    let variables = variable_count(setting)?;
    let mut slots = open_slots(alloc, variables)?;
    let progress = read_value(alloc, tables, setting, &mut slots, &declared, whole)?;
    Ok(Walk {
        variables,
        slots,
        progress,
    })
}

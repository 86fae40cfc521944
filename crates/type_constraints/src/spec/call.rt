//! The constraints of calls in specifications.

ghost use Rattle.std.specs.Prelude.{◌≡◌, ◌++◌, OnOk, Some, map};
ghost use Rattle.std.specs.Map.{lookup};
ghost use Rattle.std.specs.Option.{option_map};
ghost use Rattle.program.specs.Same.{same_function};
ghost use Rattle.base.specs.TypeData.{list_of_types};
ghost use Rattle.typing_rules.specs.Instances.{spec_type};
ghost use Rattle.typing_rules.specs.SpecConstraints.{callee_constraints, spec_callee_signature, spec_given_constraints, spec_signature, spec_signature_constraints};
ghost use Rattle.type_constraints.specs.Seen.{builtin_type, seen_all};
ghost use Rattle.type_constraints.specs.Signatures.{seen_signature};
ghost use Rattle.type_constraints.specs.SpecSettings.{setting_of};

use crate::builtin::{BuiltinSignature, of_spec};
use crate::constraint::{BuiltinType, Constraint, TypeForm, add, add_unless};
use crate::spec::arguments::add_arguments;
use crate::spec::setting::SpecSetting;
use base::memory::NoMemory;
use base::types::{FunctionId, TypeTerm};
use program::declaration::TypedName;
use program::operator::SpecBuiltin;
use program::spec::{SpecCall, SpecCallee};

/// Adds the constraints of arguments: each has the type of its parameter, whose type parameters are so many type
/// variables from `first` on.
pub fn add_given<'a>(
    constraints: &mut Vec<Constraint<'a>>,
    first: usize,
    count: usize,
    parts: &[usize],
    parameters: &'a [TypedName],
) -> Result<(), NoMemory>
    ensures { OnOk result (seen_all constraints.new.items ≡ seen_all constraints.old.items ++ spec_given_constraints first count parts.now (map (λ p. spec_type p.annotation) parameters.now)) }
{
    let mut left = parameters;
    for part in parts {
        let Some((parameter, more)) = left.split_first() else {
            return add(constraints, &[Constraint::Barred]);
        };
        let form = TypeForm::DeclaredRead(&parameter.annotation, first, count);
        add(constraints, &[Constraint::Has(*part, form)])?;
        left = more;
    }
    match left.split_first() {
        Some(_) => add(constraints, &[Constraint::Barred]),
        None => Ok(()),
    }
}

/// The same for builtin functions of specifications.
fn add_given_builtin<'a>(
    constraints: &mut Vec<Constraint<'a>>,
    first: usize,
    count: usize,
    parts: &[usize],
    parameters: &[BuiltinType],
) -> Result<(), NoMemory>
    ensures { OnOk result (seen_all constraints.new.items ≡ seen_all constraints.old.items ++ spec_given_constraints first count parts.now (map builtin_type parameters.now)) }
{
    let mut left = parameters;
    for part in parts {
        let Some((parameter, more)) = left.split_first() else {
            return add(constraints, &[Constraint::Barred]);
        };
        let form = TypeForm::Builtin(*parameter, first, count);
        add(constraints, &[Constraint::Has(*part, form)])?;
        left = more;
    }
    match left.split_first() {
        Some(_) => add(constraints, &[Constraint::Barred]),
        None => Ok(()),
    }
}

/// Adds the constraints of a call of a spec function.
fn add_function<'a>(
    constraints: &mut Vec<Constraint<'a>>,
    setting: SpecSetting<'a>,
    variable: usize,
    first: usize,
    id: &FunctionId,
    types: &'a [TypeTerm],
    parts: &[usize],
) -> Result<(), NoMemory>
    ensures { OnOk result (seen_all constraints.new.items ≡ seen_all constraints.old.items ++ spec_signature_constraints (setting_of setting.entry) variable first (option_map spec_signature (lookup (same_function id.now) setting.entry.program.now.spec_functions)) types.now parts.now) }
{
    let Some(found) = setting.program.spec_functions.get(id) else {
        return add(constraints, &[Constraint::Barred]);
    };
    let count = found.type_parameters.as_slice().len();
    add_arguments(constraints, setting, first, count, types)?;
    add_given(
        constraints,
        first,
        count,
        parts,
        found.parameters.as_slice(),
    )?;
    let form = TypeForm::DeclaredRead(&found.result, first, count);
    add(constraints, &[Constraint::Has(variable, form)])
}

/// Adds the constraints of a call of a builtin function.
fn add_builtin<'a>(
    constraints: &mut Vec<Constraint<'a>>,
    setting: SpecSetting<'a>,
    variable: usize,
    first: usize,
    signature: BuiltinSignature,
    types: &'a [TypeTerm],
    parts: &[usize],
) -> Result<(), NoMemory>
    ensures { OnOk result (seen_all constraints.new.items ≡ seen_all constraints.old.items ++ spec_signature_constraints (setting_of setting.entry) variable first (Some (seen_signature signature)) types.now parts.now) }
{
    let count = signature.arity;
    add_arguments(constraints, setting, first, count, types)?;
    add_given_builtin(constraints, first, count, parts, signature.parameters)?;
    let form = TypeForm::Builtin(signature.returned, first, count);
    add(constraints, &[Constraint::Has(variable, form)])
}

/// Adds the constraint that `old` occurs only in clauses that speak of two states.
fn add_callee<'a>(
    constraints: &mut Vec<Constraint<'a>>,
    may_be_old: bool,
    callee: &SpecCallee,
) -> Result<(), NoMemory>
    ensures { OnOk result (seen_all constraints.new.items ≡ seen_all constraints.old.items ++ callee_constraints may_be_old callee.now) }
{
    match callee {
        SpecCallee::Builtin(SpecBuiltin::Old) => add_unless(constraints, may_be_old),
        _ => Ok(()),
    }
}

/// Adds the constraints of a call of this callee, with written type arguments or none.
fn add_signature<'a>(
    constraints: &mut Vec<Constraint<'a>>,
    setting: SpecSetting<'a>,
    variable: usize,
    first: usize,
    callee: &'a SpecCallee,
    types: &'a [TypeTerm],
    parts: &[usize],
) -> Result<(), NoMemory>
    ensures { OnOk result (seen_all constraints.new.items ≡ seen_all constraints.old.items ++ spec_signature_constraints (setting_of setting.entry) variable first (spec_callee_signature setting.entry.program.now callee.now) types.now parts.now) }
{
    match callee {
        SpecCallee::Function(id) => {
            add_function(constraints, setting, variable, first, id, types, parts)
        }
        SpecCallee::Builtin(builtin) => {
            let signature = of_spec(*builtin);
            add_builtin(
                constraints,
                setting,
                variable,
                first,
                signature,
                types,
                parts,
            )
        }
    }
}

/// Adds the constraints of the call with the number `variable`, whose type arguments are the type variables from `first`
/// on.
pub fn add_call<'a>(
    constraints: &mut Vec<Constraint<'a>>,
    setting: SpecSetting<'a>,
    variable: usize,
    first: usize,
    call: &'a SpecCall,
    parts: &[usize],
) -> Result<(), NoMemory>
    ensures { OnOk result (seen_all constraints.new.items ≡ seen_all constraints.old.items ++ (callee_constraints setting.entry.allowed.old call.now.callee ++ spec_signature_constraints (setting_of setting.entry) variable first (spec_callee_signature setting.entry.program.now call.now.callee) (list_of_types call.now.types) parts.now)) }
{
    add_callee(constraints, setting.allowed.old, &call.callee)?;
    add_signature(
        constraints,
        setting,
        variable,
        first,
        &call.callee,
        &call.types.items,
        parts,
    )
}

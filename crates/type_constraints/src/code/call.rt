//! The constraints of calls.

ghost use Rattle.std.specs.Prelude.{◌≡◌, ◌++◌, OnOk, Some, map};
ghost use Rattle.std.specs.Map.{lookup};
ghost use Rattle.std.specs.Option.{option_map};
ghost use Rattle.program.specs.Same.{same_function};
ghost use Rattle.base.specs.TypeData.{list_of_types};
ghost use Rattle.typing_rules.specs.CodeConstraints.{call_constraints, given_constraints};
ghost use Rattle.typing_rules.specs.Settings.{callee_signature, function_signature};
ghost use Rattle.type_constraints.specs.Signatures.{seen_signature};
ghost use Rattle.type_constraints.specs.Seen.{builtin_type, seen_all};

use crate::builtin::{BuiltinSignature, of_address, of_storage, of_vector};
use crate::code::arguments::add_arguments;
use crate::constraint::{BuiltinType, Constraint, TypeForm, add};
use base::memory::NoMemory;
use base::types::{FunctionId, TypeTerm};
use program::code::{Call, Callee};
use program::declaration::{Function, TypedName};
use program::program::Program;

/// Adds the constraints of arguments: each fits its parameter, whose type parameters are so many type variables from
/// `first` on.
fn add_given<'a>(
    constraints: &mut Vec<Constraint<'a>>,
    first: usize,
    count: usize,
    parts: &[usize],
    parameters: &'a [TypedName],
) -> Result<(), NoMemory>
    ensures { OnOk result (seen_all constraints.new.items ≡ seen_all constraints.old.items ++ given_constraints first count parts.now (map (λ p. p.annotation) parameters.now)) }
{
    let mut left = parameters;
    for part in parts {
        let Some((parameter, more)) = left.split_first() else {
            return add(constraints, &[Constraint::Barred]);
        };
        let form = TypeForm::Declared(&parameter.annotation, first, count);
        add(constraints, &[Constraint::Takes(*part, form)])?;
        left = more;
    }
    match left.split_first() {
        Some(_) => add(constraints, &[Constraint::Barred]),
        None => Ok(()),
    }
}

/// The same for functions of the language itself.
fn add_given_builtin<'a>(
    constraints: &mut Vec<Constraint<'a>>,
    first: usize,
    count: usize,
    parts: &[usize],
    parameters: &[BuiltinType],
) -> Result<(), NoMemory>
    ensures { OnOk result (seen_all constraints.new.items ≡ seen_all constraints.old.items ++ given_constraints first count parts.now (map builtin_type parameters.now)) }
{
    let mut left = parameters;
    for part in parts {
        let Some((parameter, more)) = left.split_first() else {
            return add(constraints, &[Constraint::Barred]);
        };
        let form = TypeForm::Builtin(*parameter, first, count);
        add(constraints, &[Constraint::Takes(*part, form)])?;
        left = more;
    }
    match left.split_first() {
        Some(_) => add(constraints, &[Constraint::Barred]),
        None => Ok(()),
    }
}

/// Adds the constraints of a call of a declared function.
fn add_function<'a>(
    constraints: &mut Vec<Constraint<'a>>,
    program: &'a Program,
    variable: usize,
    first: usize,
    id: &FunctionId,
    types: &'a [TypeTerm],
    parts: &[usize],
) -> Result<(), NoMemory>
    ensures { OnOk result (seen_all constraints.new.items ≡ seen_all constraints.old.items ++ call_constraints program.now.structs variable first (option_map function_signature (lookup (same_function id.now) program.now.functions)) types.now parts.now) }
{
    let Some(found) = program.functions.get(id) else {
        return add(constraints, &[Constraint::Barred]);
    };
    let count = found.type_parameters.as_slice().len();
    add_arguments(constraints, &program.structs, first, count, types)?;
    add_given(
        constraints,
        first,
        count,
        parts,
        found.parameters.as_slice(),
    )?;
    add(
        constraints,
        &[Constraint::Has(variable, TypeForm::Declared(&found.result, first, count))],
    )
}

/// Adds the constraints of a call of a function of the language itself.
fn add_builtin<'a>(
    constraints: &mut Vec<Constraint<'a>>,
    program: &Program,
    variable: usize,
    first: usize,
    signature: BuiltinSignature,
    types: &'a [TypeTerm],
    parts: &[usize],
) -> Result<(), NoMemory>
    ensures { OnOk result (seen_all constraints.new.items ≡ seen_all constraints.old.items ++ call_constraints program.now.structs variable first (Some (seen_signature signature)) types.now parts.now) }
{
    let count = signature.arity;
    add_arguments(constraints, &program.structs, first, count, types)?;
    add_given_builtin(constraints, first, count, parts, signature.parameters)?;
    let form = TypeForm::Builtin(signature.returned, first, count);
    add(constraints, &[Constraint::Has(variable, form)])
}

/// Adds the constraints of a call of this callee, with written type arguments or none.
fn add_callee<'a>(
    constraints: &mut Vec<Constraint<'a>>,
    program: &'a Program,
    variable: usize,
    first: usize,
    callee: &'a Callee,
    types: &'a [TypeTerm],
    parts: &[usize],
) -> Result<(), NoMemory>
    ensures { OnOk result (seen_all constraints.new.items ≡ seen_all constraints.old.items ++ call_constraints program.now.structs variable first (callee_signature program.now callee.now) types.now parts.now) }
{
    match callee {
        Callee::Function(id) => add_function(
            constraints,
            program,
            variable,
            first,
            id,
            types,
            parts,
        ),
        Callee::Storage(operation) => {
            let signature = of_storage(*operation);
            add_builtin(
                constraints,
                program,
                variable,
                first,
                signature,
                types,
                parts,
            )
        }
        Callee::Vector(function) => {
            let signature = of_vector(*function);
            add_builtin(
                constraints,
                program,
                variable,
                first,
                signature,
                types,
                parts,
            )
        }
        Callee::AddressOf => {
            add_builtin(
                constraints,
                program,
                variable,
                first,
                of_address(),
                types,
                parts,
            )
        }
    }
}

/// Adds the constraints of the call with the number `variable`, whose type arguments are the type variables from `first`
/// on.
#[tactic(auto, using(crate::proofs::Arguments::listed_types))]
pub fn add_call<'a>(
    constraints: &mut Vec<Constraint<'a>>,
    program: &'a Program,
    variable: usize,
    first: usize,
    call: &'a Call,
    parts: &[usize],
) -> Result<(), NoMemory>
    ensures { OnOk result (seen_all constraints.new.items ≡ seen_all constraints.old.items ++ call_constraints program.now.structs variable first (callee_signature program.now call.now.callee) (list_of_types call.now.types) parts.now) }
{
    add_callee(
        constraints,
        program,
        variable,
        first,
        &call.callee,
        &call.types.items,
        parts,
    )
}

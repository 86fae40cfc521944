//! Spec functions.

ghost use Rattle.std.specs.Prelude.{◌≡◌, IfOk};
ghost use Rattle.typing_rules.specs.CodeConstraints.{has};
ghost use Rattle.typing_rules.specs.CodeSystems.{last_by};
ghost use Rattle.typing_rules.specs.Instances.{spec_type};
ghost use Rattle.type_constraints.specs.Functions.{spec_function_setting};
ghost use Rattle.type_constraints.specs.Seen.{seen};
ghost use Rattle.type_constraints.specs.SpecSettings.{setting_of};

use crate::constraint::{Constraint, ReadType, TypeForm};
use crate::spec::setting::{Allowed, Names, Owner, SpecSetting};
use crate::spec::variables::variable_count;
use base::memory::NoMemory;
use program::declaration::SpecFunction;
use program::program::Program;

/// The setting of the body of a spec function.
pub fn function_setting<'a>(
    program: &'a Program,
    function: &'a SpecFunction,
) -> Result<SpecSetting<'a>, NoMemory>
    ensures { IfOk result (λ setting. setting_of setting ≡ spec_function_setting program.now function.now) }
{
    let variables = variable_count(&function.body)?;
    Ok(SpecSetting {
        program,
        body: &function.body,
        names: Names {
            owner: Owner::SpecFunction(function),
            lets: &[],
        },
        allowed: Allowed {
            old: false,
            results: false,
            exits: false,
        },
        variables,
    })
}

/// The constraint on a spec function's body as a whole.
pub fn returned<'a>(function: &'a SpecFunction) -> Constraint<'a>
    ensures { seen result ≡ last_by (λ n. has n (spec_type function.now.result)) function.now.body.nodes 0 }
{
    let count = function.body.len();
    if count == 0 {
        Constraint::Barred
    } else {
        let form = TypeForm::Read(ReadType::Read(&function.result));
        Constraint::Has(count - 1, form)
    }
}

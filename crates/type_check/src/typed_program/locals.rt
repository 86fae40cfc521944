//! The types of the locals of a function, as trees.

ghost use Rattle.std.specs.Prelude.{◌≡◌, ◌+◌, ◌<◌, IfOk, length, Some, slice_get};
ghost use Rattle.typing_rules.specs.CodeSystems.{function_system};
ghost use Rattle.type_check.specs.Clauses.{AreLocals};
ghost use Rattle.type_check.specs.Tables.{IsTable};

use crate::typed_program::TypeTable;
use base::memory::NoMemory;
use base::types::TypeTerm;
use body_types::spec::terms::term_of;
use program::declaration::Function;
use program::program::Program;
use std::alloc::Global;

/// The number of the type of a local, whose type variables come after the first ones.
fn local_number(numbers: &[usize], first: usize, local: usize) -> usize
    requires { first + local < length numbers.now }
    ensures { slice_get numbers.now (first + local) ≡ Some result }
{
    numbers[first + local]
}

/// The types of the locals of a function, by its table.
pub(crate) fn local_types(
    alloc: Global,
    program: &Program,
    function: &Function,
    table: &TypeTable,
) -> Result<Vec<TypeTerm>, NoMemory>
    requires { IsTable (function_system program.now function.now) table.now }
    ensures { IfOk result (λ terms. AreLocals program.now function.now terms.items) }
{
    let first = function.body.len();
    let numbers = table.types.as_slice();
    let mut terms = Vec::new(alloc);
    for local in 0..function.locals.as_slice().len() {
        let number = local_number(numbers, first, local);
        terms.push(term_of(alloc, &table.pool, number)?)?;
    }
    Ok(terms)
}

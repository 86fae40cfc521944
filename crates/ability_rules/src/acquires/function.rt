//! Decides whether a function lists the structs that it must list.

ghost use Rattle.std.specs.Prelude.{◌↔◌, ◌<◌, All, IsTrue, IfOk, length, map};
ghost use Rattle.typing_rules.specs.Acquires.{LacksAcquires};
ghost use Rattle.typing_rules.specs.Answers.{IsTyped};
ghost use Rattle.typing_rules.specs.CodeSystems.{function_system};
ghost use Rattle.typing_rules.specs.Pools.{type_at, types};

use crate::acquires::listed::set_of;
use crate::acquires::look::Look;
use crate::acquires::node::node_lacks;
use base::memory::NoMemory;
use base::types::FunctionId;
use program::declaration::Function;
use program::home::Home;
use program::program::Program;
use program::table::Table;
use std::alloc::Global;
use type_constraints::typed_nodes::first::{first_of_all, first_of_next};
use typing_rules::type_pool::TypePool;

/// Decides whether a struct that the function must list in `acquires` is missing, given the numbers in the pool of the
/// types of its type variables. The list of each called function is examined once, however often it is called.
pub fn lacks_acquires(
    alloc: Global,
    program: &Program,
    id: &FunctionId,
    function: &Function,
    pool: &TypePool,
    variables: &[usize],
) -> Result<bool, NoMemory>
    requires typed { IsTyped (function_system program.now function.now) (map (type_at (types pool.now)) variables.now) }
    requires within { All (λ n. n < length pool.now) variables.now }
    ensures { IfOk result (λ lacks. IsTrue lacks ↔ LacksAcquires program.now id.now function.now) }
{
    let own = Home::of_function(id).to_id(alloc)?;
    let listed = set_of(alloc, function.acquires.as_slice())?;
    let look = Look {
        program,
        own: &own,
        listed: &listed,
        pool,
        variables,
    };
    let mut seen = Table::new(alloc);
    let mut first = first_of_all(function, variables.len());
    for index in 0..function.body.len() {
        let lacks = node_lacks(alloc, look, &mut seen, first, function.body.node(index))?;
        if lacks {
            return Ok(true);
        }
        first = first_of_next(program, function, index, first, variables.len());
    }
    Ok(false)
}

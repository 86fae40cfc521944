//! The type variables of the type arguments of nodes.

ghost use Rattle.std.specs.Prelude.{◌≡◌, ◌+◌, ◌<◌, ◌≤◌, length};
ghost use Rattle.program.specs.declared.program.Program.{Program};
ghost use Rattle.typing_rules.specs.CodeSystems.{function_setting};
ghost use Rattle.typing_rules.specs.Settings.{first_argument, variable_count};

use crate::code::arity::node_arity;
use program::declaration::Function;
use program::program::Program;

/// The type variable of the first type argument of the first node, in a function with `count` type variables.
pub fn first_of_all(function: &Function, count: usize) -> usize
    requires { length function.now.body.nodes + length function.now.locals ≤ count }
    ensures { (program : Program) → result ≡ first_argument (function_setting program function.now) 0 }
{
    function.body.len() + function.locals.as_slice().len()
}

/// The type variable of the first type argument of the next node: that of this one's first, plus the number of its type
/// arguments.
pub fn first_of_next(
    program: &Program,
    function: &Function,
    index: usize,
    first: usize,
    count: usize,
) -> usize
    requires node { index < length function.now.body.nodes }
    requires first { first ≡ first_argument (function_setting program.now function.now) index }
    requires count { count ≡ variable_count (function_setting program.now function.now) }
    ensures next { result ≡ first_argument (function_setting program.now function.now) (index + 1) }
    ensures within { result ≤ count }
{
    let arity = node_arity(program, function.body.node(index));
    first + arity
}

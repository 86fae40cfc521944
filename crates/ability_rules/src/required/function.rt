//! The abilities that a function requires.

ghost use Rattle.std.specs.Prelude.{◌≡◌, ◌↔◌, ◌+◌, ◌<◌, IsTrue, IfOk, MatchOption, length};
ghost use Rattle.typing_rules.specs.Required.{FunctionLacksAbility, LacksDeclared, constrained_in, given_abilities};
ghost use Rattle.typing_rules.specs.CodeSystems.{function_setting};
ghost use Rattle.typing_rules.specs.Settings.{first_argument};
ghost use Rattle.ability_rules.specs.Bodies.{IsJudgedBody, TellsTaken};
ghost use Rattle.ability_rules.specs.Nodes.{IsAbleTo, NodeLacksAbility};

use crate::required::argument::{lacks_argument, node_parameters, writes_lacking};
use crate::required::body::JudgedBody;
use crate::required::declared::{given_abilities, judge};
use crate::required::required::node_lacks;
use crate::required::taken::taken_of;
use base::memory::NoMemory;
use base::types::TypeTerm;
use program::declaration::{AbilitySet, Function};
use program::program::Program;
use std::alloc::Global;
use type_constraints::typed_nodes::first::{first_of_all, first_of_next};

/// Returns the type variable of the first type argument of the next node; none where the node `index`, whose type
/// arguments are the type variables from `first` on, lacks an ability, or has a type argument or a written type that is
/// not valid.
fn next_if_able<'a>(
    program: &Program,
    function: &Function,
    judged: JudgedBody<'a>,
    params: &[AbilitySet],
    taken: &[bool],
    index: usize,
    first: usize,
) -> Option<usize>
    requires judged { IsJudgedBody program.now function.now judged.variables.now judged.table.now }
    requires params { params.now ≡ given_abilities function.now.type_parameters }
    requires taken { TellsTaken taken.now function.now.body.nodes }
    requires node { index < length function.now.body.nodes }
    requires first { first ≡ first_argument (function_setting program.now function.now) index }
    ensures { MatchOption result (NodeLacksAbility program.now function.now index) (IsAbleTo program.now function.now index) }
{
    let next = first_of_next(program, function, index, first, judged.variables.len());
    let node = function.body.node(index);
    let asks = node_lacks(judged, &function.body, taken, node, index, first);
    let argues = lacks_argument(judged, node_parameters(program, node), first, next);
    let writes = writes_lacking(&program.structs, params, node);
    if asks | argues | writes {
        None
    } else {
        Some(next)
    }
}

/// Decides whether each type argument in a type meets its constraint.
fn is_constrained(
    program: &Program,
    function: &Function,
    params: &[AbilitySet],
    term: &TypeTerm,
) -> bool
    requires { params.now ≡ given_abilities function.now.type_parameters }
    ensures { result ≡ constrained_in program.now function.now term.now }
{
    judge(&program.structs, params, term).is_constrained
}

/// Decides whether a type of the signature contains a type argument that does not meet its constraint.
fn is_signature_lacking(program: &Program, function: &Function, params: &[AbilitySet]) -> bool
    requires { params.now ≡ given_abilities function.now.type_parameters }
    ensures { IsTrue result ↔ LacksDeclared program.now function.now }
{
    for parameter in function.parameters.as_slice() {
        let is_met = is_constrained(program, function, params, &parameter.annotation);
        if !is_met {
            return true;
        }
    }
    !is_constrained(program, function, params, &function.result)
}

/// Decides whether an ability that the function requires is missing, given the types of its type variables.
pub fn function_lacks_ability<'a>(
    alloc: Global,
    program: &Program,
    function: &Function,
    judged: JudgedBody<'a>,
) -> Result<bool, NoMemory>
    requires { IsJudgedBody program.now function.now judged.variables.now judged.table.now }
    ensures { IfOk result (λ lacks. IsTrue lacks ↔ FunctionLacksAbility program.now function.now) }
{
    let params = given_abilities(alloc, function.type_parameters.as_slice())?;
    let taken = taken_of(alloc, &function.body)?;
    let mut first = first_of_all(function, judged.variables.len());
    for index in 0..function.body.len() {
        let Some(next) = next_if_able(
            program,
            function,
            judged,
            params.as_slice(),
            taken.as_slice(),
            index,
            first,
        ) else {
            return Ok(true);
        };
        first = next;
    }
    Ok(is_signature_lacking(program, function, params.as_slice()))
}

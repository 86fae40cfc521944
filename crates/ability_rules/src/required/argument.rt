//! Type arguments of nodes and in written types.

ghost use Rattle.std.specs.Prelude.{◌≡◌, ◌↔◌, ◌-◌, ◌<◌, ◌≤◌, All, IsTrue, length, not};
ghost use Rattle.std.specs.List.{list_any};
ghost use Rattle.typing_rules.specs.Required.{callee_parameters, is_constrained, maybe_type, node_parameters};
ghost use Rattle.ability_rules.specs.Entries.{IsListed};
ghost use Rattle.ability_rules.specs.Bodies.{LacksArgument, is_argument, judged_variable, writes_lacking};

use crate::required::body::{JudgedBody, known};
use crate::required::declared::judge;
use crate::required::entry::{meets_parameter, struct_parameters};
use base::types::{StructId, TypeTerm};
use program::arena::Node;
use program::boxed::Boxed;
use program::code::{Callee, CodeBinary, CodeLeaf, CodeMany, CodeUnary};
use program::declaration::{AbilitySet, Struct, TypeParameter};
use program::program::Program;
use program::table::Table;

fn callee_parameters<'a>(program: &'a Program, callee: &Callee) -> &'a [TypeParameter]
    ensures { result.now ≡ callee_parameters program.now callee.now }
{
    match callee {
        Callee::Function(id) => match program.functions.get(id) {
            Some(found) => found.type_parameters.as_slice(),
            None => &[],
        },
        _ => &[],
    }
}

/// The type parameters that the type arguments of a node are for.
pub(crate) fn node_parameters<'a>(
    program: &'a Program,
    node: &Node<CodeLeaf, CodeUnary, CodeBinary, CodeMany>,
) -> &'a [TypeParameter]
    ensures { result.now ≡ node_parameters program.now node.now }
{
    match node {
        Node::Many(CodeMany::Call(call), _) => callee_parameters(program, &call.get().callee),
        Node::Many(CodeMany::Pack(named), _) => {
            struct_parameters(&program.structs, &named.get().owner)
        }
        Node::Many(CodeMany::Unpack(named), _) => {
            struct_parameters(&program.structs, &named.get().owner)
        }
        _ => &[],
    }
}

/// Decides whether the type of a variable is a valid argument for the type parameter with this number.
fn is_argument<'a>(
    judged: JudgedBody<'a>,
    parameters: &[TypeParameter],
    variable: usize,
    number: usize,
) -> bool
    requires within { variable < length judged.variables.now }
    requires known { All (IsListed judged.table.now) judged.variables.now }
    ensures { result ≡ is_argument (judged_variable judged.entry.table.now judged.entry.variables.now variable) parameters.now number }
{
    let of = known(judged, variable);
    of.is_constrained && meets_parameter(parameters, number, of.abilities)
}

/// Decides whether one of the type arguments from the type variable `first` on, before `next`, is no valid argument for
/// its parameter.
pub(crate) fn lacks_argument<'a>(
    judged: JudgedBody<'a>,
    parameters: &[TypeParameter],
    first: usize,
    next: usize,
) -> bool
    requires within { next ≤ length judged.variables.now }
    requires known { All (IsListed judged.table.now) judged.variables.now }
    ensures { IsTrue result ↔ LacksArgument (judged_variable judged.entry.table.now judged.entry.variables.now) parameters.now first (next - first) }
{
    for variable in first..next {
        let is_able = is_argument(judged, parameters, variable, variable - first);
        if !is_able {
            return true;
        }
    }
    false
}

fn is_lacking(
    structs: &Table<StructId, Struct>,
    params: &[AbilitySet],
    annotation: &Option<Boxed<TypeTerm>>,
) -> bool
    ensures { result ≡ list_any (λ of. not (is_constrained structs.now params.now of)) (maybe_type annotation.now) }
{
    match annotation {
        Some(term) => !judge(structs, params, term.get()).is_constrained,
        None => false,
    }
}

/// Decides whether a type that is written at the node contains a type argument that does not meet its constraint.
pub(crate) fn writes_lacking(
    structs: &Table<StructId, Struct>,
    params: &[AbilitySet],
    node: &Node<CodeLeaf, CodeUnary, CodeBinary, CodeMany>,
) -> bool
    ensures { result ≡ writes_lacking structs.now params.now node.now }
{
    match node {
        Node::Unary(CodeUnary::Cast(term), _) => {
            !judge(structs, params, term.get()).is_constrained
        }
        Node::Unary(CodeUnary::Declare(annotation), _) => is_lacking(structs, params, annotation),
        Node::Binary(CodeBinary::Let(annotation), _, _) => is_lacking(structs, params, annotation),
        _ => false,
    }
}

//! The number of type arguments of a node.

ghost use Rattle.std.specs.Prelude.{◌≡◌};
ghost use Rattle.typing_rules.specs.Settings.{form_arity, node_arity};

use crate::code::signature::{callee_arity, struct_arity};
use program::arena::Node;
use program::code::{CodeBinary, CodeLeaf, CodeMany, CodeUnary};
use program::program::Program;

fn form_arity(program: &Program, form: &CodeMany) -> usize
    ensures { result ≡ form_arity program.now form.now }
{
    match form {
        CodeMany::Call(call) => callee_arity(program, &call.get().callee),
        CodeMany::Vector(_) => 1,
        CodeMany::Pack(named) => struct_arity(&program.structs, &named.get().owner),
        CodeMany::Unpack(named) => struct_arity(&program.structs, &named.get().owner),
        _ => 0,
    }
}

/// The number of type arguments of a node, whether they are written or not.
pub fn node_arity(
    program: &Program,
    node: &Node<CodeLeaf, CodeUnary, CodeBinary, CodeMany>,
) -> usize
    ensures { result ≡ node_arity program.now node.now }
{
    match node {
        Node::Many(form, _) => form_arity(program, form),
        _ => 0,
    }
}

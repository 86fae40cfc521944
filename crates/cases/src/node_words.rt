//! Words for the nodes of code.

use crate::lines::{push_number, push_word};
use base::memory::NoMemory;
use program::arena::Node;
use program::code::{Body, Callee, CodeBinary, CodeLeaf, CodeMany, CodeUnary};
use std::alloc::Global;

fn leaf_word(leaf: &CodeLeaf) -> &'static str {
    match leaf {
        CodeLeaf::Number(_) => "number",
        CodeLeaf::Truth(_) => "truth",
        CodeLeaf::Address(_) => "address",
        CodeLeaf::Local(_, _) => "local",
        CodeLeaf::Constant(_) => "constant",
        CodeLeaf::Return => "return",
        CodeLeaf::Break => "break",
        CodeLeaf::Continue => "continue",
        CodeLeaf::Bind(_) => "bind",
        CodeLeaf::Ignore => "ignore",
    }
}

/// The number of a local that stands or is bound.
fn leaf_number(leaf: &CodeLeaf) -> Option<usize> {
    match leaf {
        CodeLeaf::Local(_, number) => Some(*number),
        CodeLeaf::Bind(number) => Some(*number),
        _ => None,
    }
}

fn unary_word(unary: &CodeUnary) -> &'static str {
    match unary {
        CodeUnary::Not => "not",
        CodeUnary::Dereference => "dereference",
        CodeUnary::Borrow => "borrow",
        CodeUnary::BorrowMutable => "borrow_mut",
        CodeUnary::Field(_) => "field",
        CodeUnary::Cast(_) => "cast",
        CodeUnary::Return => "return",
        CodeUnary::Abort => "abort",
        CodeUnary::Loop => "loop",
        CodeUnary::Discard => "discard",
        CodeUnary::Declare(_) => "declare",
    }
}

fn binary_word(binary: &CodeBinary) -> &'static str {
    match binary {
        CodeBinary::Operator(_) => "operator",
        CodeBinary::Assign => "assign",
        CodeBinary::If => "if",
        CodeBinary::While => "while",
        CodeBinary::Assert => "assert",
        CodeBinary::Let(_) => "let",
    }
}

fn many_word(many: &CodeMany) -> &'static str {
    match many {
        CodeMany::Call(called) => match &called.get().callee {
            Callee::Function(_) => "call",
            Callee::Storage(_) => "storage",
            Callee::Vector(_) => "vector_call",
            Callee::AddressOf => "address_of",
        },
        CodeMany::Vector(_) => "vector",
        CodeMany::Pack(_) => "pack",
        CodeMany::Unpack(_) => "unpack",
        CodeMany::Tuple => "tuple",
        CodeMany::TuplePattern => "pattern",
        CodeMany::Block { has_value: true } => "block",
        CodeMany::Block { has_value: false } => "statements",
    }
}

/// Writes the nodes of a body in their order, each by a word, and locals with their numbers.
pub fn push_nodes(alloc: Global, line: &mut String, body: &Body) -> Result<(), NoMemory> {
    for index in 0..body.len() {
        match body.node(index) {
            Node::Leaf(leaf) => {
                push_word(line, leaf_word(leaf))?;
                if let Some(number) = leaf_number(leaf) {
                    push_number(alloc, line, number)?;
                }
            }
            Node::Unary(unary, _) => push_word(line, unary_word(unary))?,
            Node::Binary(binary, _, _) => push_word(line, binary_word(binary))?,
            Node::If(_, _, _) => push_word(line, "branches")?,
            Node::Many(many, _) => push_word(line, many_word(many))?,
        }
    }
    Ok(())
}

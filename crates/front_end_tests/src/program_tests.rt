//! Bodies and tables that are built by hand.

use base::name::Name;
use base::span::Span;
use program::arena::{Arena, Node};
use program::boxed::Boxed;
use program::code::{Body, CodeBinary, CodeLeaf, CodeMany, CodeUnary, LocalUse, Number};
use program::operator::{Arithmetic, BinaryOperator};
use program::program::{ConstantId, ModuleId, Program, SchemaId};
use program::sequence::Sequence;
use program::table::Table;
use std::alloc::Global;
use std::panic::Expect;
use std::process::Abort;
use std::test::Fail;

fn at(start: u32, end: u32) -> Span {
    Span {
        file: 0,
        start,
        end,
    }
}

fn is_sum(
    node: &Node<CodeLeaf, CodeUnary, CodeBinary, CodeMany>,
    left: usize,
    right: usize,
) -> bool {
    match node {
        Node::Binary(CodeBinary::Operator(BinaryOperator::Arithmetic(Arithmetic::Add)), a, b) => {
            *a == left && *b == right
        }
        _ => false,
    }
}

fn is_block(node: &Node<CodeLeaf, CodeUnary, CodeBinary, CodeMany>, value: usize) -> bool {
    match node {
        Node::Many(CodeMany::Block { has_value }, parts) => {
            *has_value && parts.as_slice() == [value].as_slice()
        }
        _ => false,
    }
}

/// `{ x + 1 }`, where `x` is the first parameter
#[test]
fn nodes_stand_behind_their_parts(rt: HostRuntime) -> Result<(), Fail> {
    let alloc = rt.alloc();
    let mut body: Body = Arena::new(alloc);
    let x = body
        .add(Node::Leaf(CodeLeaf::Local(LocalUse::Plain, 0)), at(2, 3))
        .expect(&rt, "memory");
    let number = Number {
        value: 1,
        width: None,
    };
    let one = body
        .add(Node::Leaf(CodeLeaf::Number(number)), at(6, 7))
        .expect(&rt, "memory");
    let operator = BinaryOperator::Arithmetic(Arithmetic::Add);
    let sum = body
        .add(
            Node::Binary(CodeBinary::Operator(operator), x, one),
            at(4, 5),
        )
        .expect(&rt, "memory");
    let mut parts = Sequence::new(alloc);
    parts.push(sum).expect(&rt, "memory");
    let block = body
        .add(
            Node::Many(CodeMany::Block { has_value: true }, parts),
            at(0, 1),
        )
        .expect(&rt, "memory");
    assert_eq!(&rt; body.len(), 4);
    assert!(&rt; is_sum(body.node(sum), 0, 1));
    assert!(&rt; is_block(body.node(block), 2));
    assert_eq!(&rt; body.span(sum), at(4, 5));
    Ok(())
}

fn module(rt: &impl Abort, alloc: Global, address: u128, name: &[u8]) -> ModuleId {
    ModuleId {
        address,
        name: Name::from_slice(alloc, name).expect(rt, "memory"),
    }
}

/// Puts a module into a table that has none of its name.
fn add_module(rt: &impl Abort, table: &mut Table<ModuleId, u64>, name: ModuleId, value: u64) {
    assert!(rt; table.get(&name).is_none());
    table.push(name, value).expect(rt, "memory");
}

#[test]
fn tables_keep_their_order(rt: HostRuntime) -> Result<(), Fail> {
    let alloc = rt.alloc();
    let mut table: Table<ModuleId, u64> = Table::new(alloc);
    add_module(&rt, &mut table, module(&rt, alloc, 2, b"m"), 5);
    add_module(&rt, &mut table, module(&rt, alloc, 1, b"m"), 6);
    assert_eq!(&rt; table.len(), 2);
    assert!(&rt; table.get(&module(&rt, alloc, 1, b"m")) == Some(&6));
    assert!(&rt; table.get(&module(&rt, alloc, 1, b"n")).is_none());
    match table.entry(0) {
        Some((name, value)) => assert!(&rt; name.address == 2 && *value == 5),
        None => assert!(&rt; false, "no first entry"),
    }
    assert!(&rt; table.entry(2).is_none());
    assert!(&rt;
        !table
            .put(module(&rt, alloc, 1, b"m"), 7)
            .expect(&rt, "memory")
    );
    assert!(&rt;
        table
            .put(module(&rt, alloc, 3, b"m"), 8)
            .expect(&rt, "memory")
    );
    assert_eq!(&rt; table.len(), 3);
    let program = Program::new(alloc);
    assert_eq!(&rt; program.functions.len(), 0);
    Ok(())
}

#[test]
fn names_are_copied(rt: HostRuntime) -> Result<(), Fail> {
    let alloc = rt.alloc();
    let owner = module(&rt, alloc, 1, b"m");
    assert!(&rt; owner.try_clone(alloc).expect(&rt, "memory") == owner);
    let constant = ConstantId {
        address: 1,
        module: Name::from_slice(alloc, b"m").expect(&rt, "memory"),
        name: Name::from_slice(alloc, b"C").expect(&rt, "memory"),
    };
    assert!(&rt; constant.try_clone(alloc).expect(&rt, "memory") == constant);
    let schema = SchemaId {
        address: 1,
        module: Name::from_slice(alloc, b"m").expect(&rt, "memory"),
        name: Name::from_slice(alloc, b"S").expect(&rt, "memory"),
    };
    assert!(&rt; schema.try_clone(alloc).expect(&rt, "memory") == schema);
    let boxed: Boxed<u64> = Boxed::new(alloc, 7).expect(&rt, "memory");
    assert_eq!(&rt; *boxed.get(), 7);
    Ok(())
}

//! Trees that are built by hand, against the tokens of the texts that they are trees of.

use crate::texts::compares;
use base::name::Name;
use base::span::Span;
use spelling::spell_expression::spell_expression;
use spelling::spell_pattern::spell_pattern;
use spelling::spell_type::spell_type;
use std::alloc::Global;
use std::panic::Expect;
use std::process::Abort;
use std::test::Fail;
use syntax_tree::expression::{Block, Expression, ExpressionNode, FieldValue, Item, ItemNode};
use syntax_tree::lexeme::{Identifier, Lexemes, Numeral};
use syntax_tree::literal::Literal;
use syntax_tree::operator::{BinaryOperator, UnaryOperator, UseKind};
use syntax_tree::path::{Address, ModuleName, Path};
use syntax_tree::pattern::{FieldPattern, Pattern, PatternNode};
use syntax_tree::spec_tokens::KeptSpec;
use syntax_tree::types::{SourceType, SourceTypeNode, TypeArguments};
use tokens::scanner::tokens;
use tokens::token::{NumberLiteral, NumberSuffix};

fn spells(rt: &impl Abort, alloc: Global, text: &[u8], tree: Box<Expression>) {
    let mut spelled = Lexemes::new(alloc);
    spell_expression(alloc, &tree, &mut spelled).expect(rt, "memory");
    compares(rt, alloc, text, &spelled);
}

// ---- parts of trees

fn at(start: u32, end: u32) -> Span {
    Span {
        file: 0,
        start,
        end,
    }
}

fn identifier(rt: &impl Abort, alloc: Global, text: &[u8], start: u32, end: u32) -> Identifier {
    Identifier {
        text: Name::from_slice(alloc, text).expect(rt, "memory"),
        span: at(start, end),
    }
}

fn path(rt: &impl Abort, alloc: Global, text: &[u8], start: u32, end: u32) -> Path {
    Path::Name(identifier(rt, alloc, text, start, end))
}

fn numeral(
    rt: &impl Abort,
    alloc: Global,
    text: &[u8],
    value: u128,
    start: u32,
    end: u32,
) -> Numeral {
    Numeral {
        literal: NumberLiteral {
            text: Name::from_slice(alloc, text).expect(rt, "memory"),
            value,
            suffix: NumberSuffix::Absent,
        },
        span: at(start, end),
    }
}

fn boxed(rt: &impl Abort, alloc: Global, node: ExpressionNode) -> Box<Expression> {
    Box::new(alloc, Expression { node }).expect(rt, "memory")
}

fn local(rt: &impl Abort, alloc: Global, text: &[u8], start: u32, end: u32) -> Box<Expression> {
    boxed(
        rt,
        alloc,
        ExpressionNode::Path(path(rt, alloc, text, start, end)),
    )
}

fn number(
    rt: &impl Abort,
    alloc: Global,
    text: &[u8],
    value: u128,
    start: u32,
    end: u32,
) -> Box<Expression> {
    let number = numeral(rt, alloc, text, value, start, end);
    boxed(rt, alloc, ExpressionNode::Literal(Literal::Number(number)))
}

fn binary(
    rt: &impl Abort,
    alloc: Global,
    left: Box<Expression>,
    operator: BinaryOperator,
    span: Span,
    right: Box<Expression>,
) -> Box<Expression> {
    boxed(
        rt,
        alloc,
        ExpressionNode::Binary {
            left,
            operator,
            span,
            right,
        },
    )
}

fn named_type(
    rt: &impl Abort,
    alloc: Global,
    text: &[u8],
    start: u32,
    end: u32,
) -> Box<SourceType> {
    let path = path(rt, alloc, text, start, end);
    let node = SourceTypeNode::Named {
        path,
        arguments: None,
    };
    Box::new(alloc, SourceType { node }).expect(rt, "memory")
}

fn one_type(rt: &impl Abort, alloc: Global, item: Box<SourceType>) -> Option<TypeArguments> {
    let mut items = Vec::new(alloc);
    items.push(Box::into_inner(item)).expect(rt, "memory");
    Some(TypeArguments {
        items,
        last_comma: false,
    })
}

fn pair(
    rt: &impl Abort,
    alloc: Global,
    one: Box<Expression>,
    other: Box<Expression>,
) -> Vec<Expression> {
    let mut items = Vec::new(alloc);
    items.push(Box::into_inner(one)).expect(rt, "memory");
    items.push(Box::into_inner(other)).expect(rt, "memory");
    items
}

// ---- trees

// a - b - c
fn differences(rt: &impl Abort, alloc: Global) -> Box<Expression> {
    let a = local(rt, alloc, b"a", 0, 1);
    let b = local(rt, alloc, b"b", 4, 5);
    let left = binary(rt, alloc, a, BinaryOperator::Subtract, at(2, 3), b);
    let c = local(rt, alloc, b"c", 8, 9);
    binary(rt, alloc, left, BinaryOperator::Subtract, at(6, 7), c)
}

// i < n
fn comparison(rt: &impl Abort, alloc: Global) -> Box<Expression> {
    let i = local(rt, alloc, b"i", 0, 1);
    let n = local(rt, alloc, b"n", 4, 5);
    binary(rt, alloc, i, BinaryOperator::Less, at(2, 3), n)
}

// x >> 8
fn shift(rt: &impl Abort, alloc: Global) -> Box<Expression> {
    let x = local(rt, alloc, b"x", 0, 1);
    let by = number(rt, alloc, b"8", 8, 5, 6);
    binary(rt, alloc, x, BinaryOperator::ShiftRight, at(2, 3), by)
}

// if (a) if (b) c else d
fn nearest_else(rt: &impl Abort, alloc: Global) -> Box<Expression> {
    let inner = boxed(
        rt,
        alloc,
        ExpressionNode::If {
            span: at(7, 9),
            condition: local(rt, alloc, b"b", 11, 12),
            then_branch: local(rt, alloc, b"c", 14, 15),
            else_branch: Some(local(rt, alloc, b"d", 21, 22)),
        },
    );
    boxed(
        rt,
        alloc,
        ExpressionNode::If {
            span: at(0, 2),
            condition: local(rt, alloc, b"a", 4, 5),
            then_branch: inner,
            else_branch: None,
        },
    )
}

// f<u64>(x, y,)
fn call(rt: &impl Abort, alloc: Global) -> Box<Expression> {
    let values = Box::new(
        alloc,
        pair(
            rt,
            alloc,
            local(rt, alloc, b"x", 7, 8),
            local(rt, alloc, b"y", 10, 11),
        ),
    )
    .expect(rt, "memory");
    boxed(
        rt,
        alloc,
        ExpressionNode::Call {
            function: path(rt, alloc, b"f", 0, 1),
            arguments: one_type(rt, alloc, named_type(rt, alloc, b"u64", 2, 5)),
            values: Box::into_inner(values),
            last_comma: true,
        },
    )
}

// S { a: 1 }
fn pack(rt: &impl Abort, alloc: Global) -> Box<Expression> {
    let value = number(rt, alloc, b"1", 1, 7, 8);
    let mut fields = Vec::new(alloc);
    fields
        .push(FieldValue {
            name: identifier(rt, alloc, b"a", 4, 5),
            value: Some(Box::into_inner(value)),
        })
        .expect(rt, "memory");
    boxed(
        rt,
        alloc,
        ExpressionNode::Pack {
            path: path(rt, alloc, b"S", 0, 1),
            arguments: None,
            fields,
            last_comma: false,
        },
    )
}

// (a + b) * c
fn product(rt: &impl Abort, alloc: Global) -> Box<Expression> {
    let a = local(rt, alloc, b"a", 1, 2);
    let b = local(rt, alloc, b"b", 5, 6);
    let sum = binary(rt, alloc, a, BinaryOperator::Add, at(3, 4), b);
    let mut items = Vec::new(alloc);
    items.push(Box::into_inner(sum)).expect(rt, "memory");
    let left = boxed(
        rt,
        alloc,
        ExpressionNode::Tuple {
            span: at(0, 1),
            items,
            last_comma: false,
        },
    );
    let c = local(rt, alloc, b"c", 10, 11);
    binary(rt, alloc, left, BinaryOperator::Multiply, at(8, 9), c)
}

// 0x1::m::C, from the byte 23 on
fn full_path(rt: &impl Abort, alloc: Global) -> Box<Expression> {
    let owner = ModuleName {
        address: Address::Number(numeral(rt, alloc, b"0x1", 1, 23, 26)),
        name: identifier(rt, alloc, b"m", 28, 29),
    };
    let name = identifier(rt, alloc, b"C", 31, 32);
    boxed(rt, alloc, ExpressionNode::Path(Path::Full(owner, name)))
}

// assert!(c, 0x1::m::C), from the byte 12 on
fn assertion(rt: &impl Abort, alloc: Global) -> Box<Expression> {
    boxed(
        rt,
        alloc,
        ExpressionNode::Assert {
            span: at(12, 18),
            condition: local(rt, alloc, b"c", 20, 21),
            code: full_path(rt, alloc),
        },
    )
}

// (x as u64), from the byte 35 on
fn cast(rt: &impl Abort, alloc: Global) -> Box<Expression> {
    boxed(
        rt,
        alloc,
        ExpressionNode::Cast {
            span: at(35, 36),
            value: local(rt, alloc, b"x", 36, 37),
            target: Box::into_inner(named_type(rt, alloc, b"u64", 41, 44)),
        },
    )
}

// &mut s.f, from the byte 47 on
fn borrowed_field(rt: &impl Abort, alloc: Global) -> Box<Expression> {
    let field = boxed(
        rt,
        alloc,
        ExpressionNode::Field {
            base: local(rt, alloc, b"s", 52, 53),
            field: identifier(rt, alloc, b"f", 54, 55),
        },
    );
    boxed(
        rt,
        alloc,
        ExpressionNode::Unary {
            operator: UnaryOperator::BorrowMutable,
            span: at(47, 48),
            operand: field,
        },
    )
}

// !true, from the byte 57 on
fn negation(rt: &impl Abort, alloc: Global) -> Box<Expression> {
    let truth = Literal::Truth {
        span: at(58, 62),
        value: true,
    };
    boxed(
        rt,
        alloc,
        ExpressionNode::Unary {
            operator: UnaryOperator::Not,
            span: at(57, 58),
            operand: boxed(rt, alloc, ExpressionNode::Literal(truth)),
        },
    )
}

// @0x1, from the byte 64 on
fn address(rt: &impl Abort, alloc: Global) -> Box<Expression> {
    let address = Literal::Address {
        span: at(64, 65),
        address: Address::Number(numeral(rt, alloc, b"0x1", 1, 65, 68)),
    };
    boxed(rt, alloc, ExpressionNode::Literal(address))
}

// vector<u64>[assert!(c, 0x1::m::C), (x as u64), &mut s.f, !true, @0x1,]
fn terms(rt: &impl Abort, alloc: Global) -> Box<Expression> {
    let mut items = Vec::new(alloc);
    items
        .push(Box::into_inner(assertion(rt, alloc)))
        .expect(rt, "memory");
    items
        .push(Box::into_inner(cast(rt, alloc)))
        .expect(rt, "memory");
    items
        .push(Box::into_inner(borrowed_field(rt, alloc)))
        .expect(rt, "memory");
    items
        .push(Box::into_inner(negation(rt, alloc)))
        .expect(rt, "memory");
    items
        .push(Box::into_inner(address(rt, alloc)))
        .expect(rt, "memory");
    boxed(
        rt,
        alloc,
        ExpressionNode::Vector {
            span: at(0, 6),
            arguments: one_type(rt, alloc, named_type(rt, alloc, b"u64", 7, 10)),
            items,
            last_comma: true,
        },
    )
}

// (a, _), from the byte 6 on
fn pair_pattern(rt: &impl Abort, alloc: Global) -> Box<Pattern> {
    let mut items = Vec::new(alloc);
    items
        .push(Pattern {
            node: PatternNode::Bind(identifier(rt, alloc, b"a", 7, 8)),
        })
        .expect(rt, "memory");
    items
        .push(Pattern {
            node: PatternNode::Ignore(at(10, 11)),
        })
        .expect(rt, "memory");
    let node = PatternNode::Tuple {
        span: at(6, 7),
        items,
        last_comma: false,
    };
    Box::new(alloc, Pattern { node }).expect(rt, "memory")
}

// let (a, _): u64 = p;, from the byte 2 on
fn binding(rt: &impl Abort, alloc: Global) -> Box<Item> {
    let node = ItemNode::Let {
        span: at(2, 5),
        pattern: Box::into_inner(pair_pattern(rt, alloc)),
        annotation: Some(Box::into_inner(named_type(rt, alloc, b"u64", 14, 17))),
        value: Some(local(rt, alloc, b"p", 20, 21)),
    };
    Box::new(alloc, Item { node }).expect(rt, "memory")
}

// *r = move x, from the byte 23 on
fn assignment(rt: &impl Abort, alloc: Global) -> Box<Expression> {
    let target = boxed(
        rt,
        alloc,
        ExpressionNode::Unary {
            operator: UnaryOperator::Dereference,
            span: at(23, 24),
            operand: local(rt, alloc, b"r", 24, 25),
        },
    );
    let value = boxed(
        rt,
        alloc,
        ExpressionNode::Use {
            kind: UseKind::Move,
            span: at(28, 32),
            local: identifier(rt, alloc, b"x", 33, 34),
        },
    );
    boxed(
        rt,
        alloc,
        ExpressionNode::Assign {
            target,
            span: at(26, 27),
            value,
        },
    )
}

// { let (a, _): u64 = p; *r = move x; return }
fn block(rt: &impl Abort, alloc: Global) -> Box<Expression> {
    let mut items = Vec::new(alloc);
    items
        .push(Box::into_inner(binding(rt, alloc)))
        .expect(rt, "memory");
    items
        .push(Item {
            node: ItemNode::Expression(assignment(rt, alloc)),
        })
        .expect(rt, "memory");
    let value = ExpressionNode::Return {
        span: at(36, 42),
        value: None,
    };
    let block = Block {
        span: at(0, 1),
        spec: None,
        items,
        value: Some(Expression { node: value }),
    };
    boxed(
        rt,
        alloc,
        ExpressionNode::Block(Box::new(alloc, block).expect(rt, "memory")),
    )
}

// spec { invariant i; }, from the byte 9 on
fn loop_spec(rt: &impl Abort, alloc: Global) -> Box<KeptSpec> {
    let tokens = tokens(alloc, 0, b"         spec { invariant i; }").expect(rt, "tokens");
    Box::new(alloc, KeptSpec { tokens }).expect(rt, "memory")
}

// loop { continue }, from the byte 37 on
fn endless(rt: &impl Abort, alloc: Global) -> Box<Expression> {
    let value = ExpressionNode::Continue(at(44, 52));
    let block = Block {
        span: at(42, 43),
        spec: None,
        items: Vec::new(alloc),
        value: Some(Expression { node: value }),
    };
    let body = boxed(
        rt,
        alloc,
        ExpressionNode::Block(Box::new(alloc, block).expect(rt, "memory")),
    );
    boxed(
        rt,
        alloc,
        ExpressionNode::Loop {
            span: at(37, 41),
            body,
        },
    )
}

// while ({ spec { invariant i; }; i }) loop { continue }
fn loops(rt: &impl Abort, alloc: Global) -> Box<Expression> {
    let spec = loop_spec(rt, alloc);
    let block = Block {
        span: at(7, 8),
        spec: Some(Box::into_inner(spec)),
        items: Vec::new(alloc),
        value: Some(Box::into_inner(local(rt, alloc, b"i", 32, 33))),
    };
    let condition = boxed(
        rt,
        alloc,
        ExpressionNode::Block(Box::new(alloc, block).expect(rt, "memory")),
    );
    boxed(
        rt,
        alloc,
        ExpressionNode::While {
            span: at(0, 5),
            condition,
            body: endless(rt, alloc),
        },
    )
}

// (T, &u8,), from the byte 12 on
fn tuple_type(rt: &impl Abort, alloc: Global) -> Box<SourceType> {
    let shared = SourceTypeNode::Shared {
        span: at(16, 17),
        target: named_type(rt, alloc, b"u8", 17, 19),
    };
    let mut items = Vec::new(alloc);
    items
        .push(Box::into_inner(named_type(rt, alloc, b"T", 13, 14)))
        .expect(rt, "memory");
    items.push(SourceType { node: shared }).expect(rt, "memory");
    let node = SourceTypeNode::Tuple {
        span: at(12, 13),
        items,
        last_comma: true,
    };
    Box::new(alloc, SourceType { node }).expect(rt, "memory")
}

// &mut vector<(T, &u8,)>
fn reference_type(rt: &impl Abort, alloc: Global) -> Box<SourceType> {
    let path = path(rt, alloc, b"vector", 5, 11);
    let named = SourceTypeNode::Named {
        path,
        arguments: one_type(rt, alloc, tuple_type(rt, alloc)),
    };
    let node = SourceTypeNode::Mutable {
        span: at(0, 1),
        target: Box::new(alloc, SourceType { node: named }).expect(rt, "memory"),
    };
    Box::new(alloc, SourceType { node }).expect(rt, "memory")
}

// m::S<T> { a: x, y, }
fn struct_pattern(rt: &impl Abort, alloc: Global) -> Box<Pattern> {
    let mut fields = Vec::new(alloc);
    fields
        .push(FieldPattern {
            name: identifier(rt, alloc, b"a", 10, 11),
            pattern: Some(Pattern {
                node: PatternNode::Bind(identifier(rt, alloc, b"x", 13, 14)),
            }),
        })
        .expect(rt, "memory");
    fields
        .push(FieldPattern {
            name: identifier(rt, alloc, b"y", 16, 17),
            pattern: None,
        })
        .expect(rt, "memory");
    let path = Path::Member(
        identifier(rt, alloc, b"m", 0, 1),
        identifier(rt, alloc, b"S", 3, 4),
    );
    let node = PatternNode::Unpack {
        path,
        arguments: one_type(rt, alloc, named_type(rt, alloc, b"T", 5, 6)),
        fields,
        last_comma: true,
    };
    Box::new(alloc, Pattern { node }).expect(rt, "memory")
}

#[test]
fn expressions_are_spelled(rt: HostRuntime) -> Result<(), Fail> {
    let alloc = rt.alloc();
    spells(&rt, alloc, b"a - b - c", differences(&rt, alloc));
    spells(&rt, alloc, b"i < n", comparison(&rt, alloc));
    spells(&rt, alloc, b"x >> 8", shift(&rt, alloc));
    spells(
        &rt,
        alloc,
        b"if (a) if (b) c else d",
        nearest_else(&rt, alloc),
    );
    spells(&rt, alloc, b"f<u64>(x, y,)", call(&rt, alloc));
    spells(&rt, alloc, b"S { a: 1 }", pack(&rt, alloc));
    spells(&rt, alloc, b"(a + b) * c", product(&rt, alloc));
    spells(
        &rt,
        alloc,
        b"vector<u64>[assert!(c, 0x1::m::C), (x as u64), &mut s.f, !true, @0x1,]",
        terms(&rt, alloc),
    );
    spells(
        &rt,
        alloc,
        b"{ let (a, _): u64 = p; *r = move x; return }",
        block(&rt, alloc),
    );
    spells(
        &rt,
        alloc,
        b"while ({ spec { invariant i; }; i }) loop { continue }",
        loops(&rt, alloc),
    );
    Ok(())
}

#[test]
fn types_and_patterns_are_spelled(rt: HostRuntime) -> Result<(), Fail> {
    let alloc = rt.alloc();
    let mut spelled = Lexemes::new(alloc);
    let tree = reference_type(&rt, alloc);
    spell_type(alloc, &tree, &mut spelled).expect(&rt, "memory");
    compares(&rt, alloc, b"&mut vector<(T, &u8,)>", &spelled);
    let mut spelled = Lexemes::new(alloc);
    let tree = struct_pattern(&rt, alloc);
    spell_pattern(alloc, &tree, &mut spelled).expect(&rt, "memory");
    compares(&rt, alloc, b"m::S<T> { a: x, y, }", &spelled);
    Ok(())
}

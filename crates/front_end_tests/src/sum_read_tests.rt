//! Sums and clauses that are read off trees that are built by hand.

use base::name::Name;
use base::span::Span;
use std::alloc::Global;
use std::panic::Expect;
use std::process::Abort;
use std::test::Fail;
use sum_read::clause::read_clauses;
use sum_read::sum::read_sum;
use sum_tree::clause::{ClauseKind, Condition};
use sum_tree::sum::{Operator, Sum, SumNode};
use syntax_tree::clause::{AbortCode, Clause as ClauseTree};
use syntax_tree::expression::{Expression, ExpressionNode};
use syntax_tree::lexeme::{Identifier, Numeral};
use syntax_tree::literal::Literal;
use syntax_tree::operator::BinaryOperator;
use syntax_tree::path::Path;
use syntax_tree::spec_expression::{SpecExpression, SpecNode};
use tokens::token::{NumberLiteral, NumberSuffix};

fn at(start: u32) -> Span {
    Span {
        file: 0,
        start,
        end: start,
    }
}

fn word(rt: &impl Abort, alloc: Global, text: &[u8]) -> Box<Expression> {
    let name = Identifier {
        text: Name::from_slice(alloc, text).expect(rt, "memory"),
        span: at(0),
    };
    let node = ExpressionNode::Path(Path::Name(name));
    Box::new(alloc, Expression { node }).expect(rt, "memory")
}

fn number(rt: &impl Abort, alloc: Global, suffix: NumberSuffix) -> Box<Expression> {
    let literal = NumberLiteral {
        text: Name::from_slice(alloc, b"1").expect(rt, "memory"),
        value: 1,
        suffix,
    };
    let numeral = Numeral {
        literal,
        span: at(0),
    };
    let node = ExpressionNode::Literal(Literal::Number(numeral));
    Box::new(alloc, Expression { node }).expect(rt, "memory")
}

fn binary(
    rt: &impl Abort,
    alloc: Global,
    left: Box<Expression>,
    operator: BinaryOperator,
    right: Box<Expression>,
) -> Box<Expression> {
    let node = ExpressionNode::Binary {
        left,
        operator,
        span: at(0),
        right,
    };
    Box::new(alloc, Expression { node }).expect(rt, "memory")
}

fn parenthesized(rt: &impl Abort, alloc: Global, inner: Box<Expression>) -> Box<Expression> {
    let mut items = Vec::new(alloc);
    items.push(Box::into_inner(inner)).expect(rt, "memory");
    let node = ExpressionNode::Tuple {
        span: at(0),
        items,
        last_comma: false,
    };
    Box::new(alloc, Expression { node }).expect(rt, "memory")
}

/// What a sum is as a whole, and what stands on its right.
#[derive(Clone, Copy, Debug, PartialEq, Eq)]
enum Shape {
    Leaf,
    Joined(Operator),
    /// A sum on the right, which is joined too.
    Nested(Operator, Operator),
}

fn shape_of(sum: &Sum) -> Shape {
    match &sum.node {
        SumNode::Number(_) => Shape::Leaf,
        SumNode::Word(_) => Shape::Leaf,
        SumNode::Joined {
            operator,
            right,
            ..
        } => match &right.node {
            SumNode::Joined {
                operator: inner,
                ..
            } => Shape::Nested(*operator, *inner),
            _ => Shape::Joined(*operator),
        },
    }
}

fn shape_read(alloc: Global, expression: &Expression) -> Option<Shape> {
    match read_sum(alloc, expression) {
        Ok(sum) => Some(shape_of(&sum)),
        Err(_) => None,
    }
}

#[test]
fn sums_are_read(rt: HostRuntime) -> Result<(), Fail> {
    let alloc = rt.alloc();
    let one = number(&rt, alloc, NumberSuffix::Absent);
    let inner = binary(&rt, alloc, word(&rt, alloc, b"b"), BinaryOperator::Add, one);
    let right = parenthesized(&rt, alloc, inner);
    let whole = binary(
        &rt,
        alloc,
        word(&rt, alloc, b"a"),
        BinaryOperator::Subtract,
        right,
    );
    let nested = Some(Shape::Nested(Operator::Minus, Operator::Plus));
    assert_eq!(rt; shape_read(alloc, &whole), nested);
    Ok(())
}

#[test]
fn other_expressions_are_refused(rt: HostRuntime) -> Result<(), Fail> {
    let alloc = rt.alloc();
    let typed = number(&rt, alloc, NumberSuffix::U64);
    assert_eq!(rt; shape_read(alloc, &typed), None);
    let product = binary(
        &rt,
        alloc,
        word(&rt, alloc, b"a"),
        BinaryOperator::Multiply,
        typed,
    );
    assert_eq!(rt; shape_read(alloc, &product), None);
    Ok(())
}

fn truth(value: bool) -> SpecExpression {
    let node = SpecNode::Literal(Literal::Truth { span: at(0), value });
    SpecExpression { node }
}

/// The clauses are one `aborts_if false`, whose word begins here.
fn are_one_abort(rt: &impl Abort, alloc: Global, clauses: &[ClauseTree], start: u32) {
    match read_clauses(alloc, clauses) {
        Ok(read) => {
            for clause in read.iter() {
                assert_eq!(rt; clause.kind, ClauseKind::AbortsIf);
                assert_eq!(rt; clause.start, start);
                assert!(rt; matches!(clause.condition, Condition::False));
            }
            assert_eq!(rt; read.len(), 1);
        }
        Err(fault) => assert!(rt; false, "{fault:?}"),
    }
}

#[test]
fn clauses_are_read(rt: HostRuntime) {
    let alloc = rt.alloc();
    let mut clauses = Vec::new(alloc);
    clauses
        .push(ClauseTree::AbortsIf {
            span: at(7),
            condition: truth(false),
            code: AbortCode::Bare,
        })
        .expect(&rt, "memory");
    are_one_abort(&rt, alloc, clauses.as_slice(), 7);
    clauses
        .push(ClauseTree::Invariant {
            span: at(9),
            is_update: false,
            condition: truth(true),
        })
        .expect(&rt, "memory");
    assert!(rt; read_clauses(alloc, clauses.as_slice()).is_err());
}

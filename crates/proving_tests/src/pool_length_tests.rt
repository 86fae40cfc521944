//! Lengths over a pool are those of the trees.

use base::name::Name;
use base::types::{StructId, TypeList, TypeNode, TypeTerm, Width};
use certificate_text::lengths::items::lengths;
use certificates::bytes::cert_len::formula_len;
use fol::formula::{Formula, FormulaNode, Term, TermNode, Trigger};
use fol::operators::{Binary, Quantifier, Ternary, Unary};
use std::alloc::Global;
use std::panic::Expect;
use std::process::Abort;
use std::test::Fail;
use term_pool::interning::intern_formula;
use term_pool::pool::Pool;

fn boxed(rt: &impl Abort, alloc: Global, node: TermNode) -> Box<Term> {
    Box::new(alloc, Term { node }).expect(rt, "memory")
}

fn variable(rt: &impl Abort, alloc: Global, number: u32) -> Box<Term> {
    boxed(rt, alloc, TermNode::Var(number))
}

// The struct `m::pair` of a vector and a byte.
fn pair(rt: &impl Abort, alloc: Global) -> TypeTerm {
    let byte = TypeTerm {
        node: TypeNode::Int(Width::U8),
    };
    let flag = TypeTerm {
        node: TypeNode::Bool,
    };
    let flags = TypeTerm {
        node: TypeNode::Vector(Box::new(alloc, flag).expect(rt, "memory")),
    };
    let mut items = Vec::new(alloc);
    items.push(flags).expect(rt, "memory");
    items.push(byte).expect(rt, "memory");
    let id = StructId {
        address: 1,
        module: Name::from_slice(alloc, b"m".as_slice()).expect(rt, "memory"),
        name: Name::from_slice(alloc, b"pair".as_slice()).expect(rt, "memory"),
    };
    TypeTerm {
        node: TypeNode::Struct(id, TypeList { items }),
    }
}

// The kinds of formulas of which the lengths are compared.
#[derive(Clone, Copy, Debug)]
enum Kind {
    Shifted,
    Stored,
    Packed,
    Typed,
    ForAll,
    NoneOf,
}

fn packed(rt: &impl Abort, alloc: Global) -> Box<Term> {
    let mut parts = Vec::new(alloc);
    parts.push(Term::variable(0)).expect(rt, "memory");
    parts.push(Term::number(7)).expect(rt, "memory");
    boxed(rt, alloc, TermNode::Pack(pair(rt, alloc), parts))
}

fn for_all(rt: &impl Abort, alloc: Global) -> Formula {
    let mut triggers = Vec::new(alloc);
    for number in 0..2 {
        let mut terms = Vec::new(alloc);
        terms.push(Term::variable(number)).expect(rt, "memory");
        terms.push(Term::number(3)).expect(rt, "memory");
        triggers.push(Trigger { terms }).expect(rt, "memory");
    }
    let body = Box::new(alloc, Formula::holds(variable(rt, alloc, 0))).expect(rt, "memory");
    Formula {
        node: FormulaNode::Quantify(Quantifier::ForAll, 0, triggers, body),
    }
}

fn formula_of(rt: &impl Abort, alloc: Global, kind: Kind) -> Formula {
    match kind {
        Kind::Shifted => {
            let left = variable(rt, alloc, 0);
            let right = variable(rt, alloc, 1);
            let shifted = TermNode::Binary(Binary::Shl(Width::U64), left, right);
            Formula::at_most(boxed(rt, alloc, shifted), variable(rt, alloc, 2))
        }
        Kind::Stored => {
            let memory = variable(rt, alloc, 0);
            let key = variable(rt, alloc, 1);
            let length = boxed(
                rt,
                alloc,
                TermNode::Unary(Unary::Len, variable(rt, alloc, 2)),
            );
            let stored = TermNode::Ternary(Ternary::Store, memory, key, length);
            Formula::equal(boxed(rt, alloc, stored), variable(rt, alloc, 0))
        }
        Kind::Packed => {
            let field = TermNode::Field(pair(rt, alloc), 1, packed(rt, alloc));
            Formula::equal(boxed(rt, alloc, field), packed(rt, alloc))
        }
        Kind::Typed => Formula::has_type(pair(rt, alloc), variable(rt, alloc, 0)),
        Kind::ForAll => for_all(rt, alloc),
        Kind::NoneOf => {
            let mut formulas = Vec::new(alloc);
            formulas.push(for_all(rt, alloc)).expect(rt, "memory");
            formulas.push(for_all(rt, alloc)).expect(rt, "memory");
            let any = Box::new(alloc, Formula::any_of(formulas)).expect(rt, "memory");
            Formula::not(any)
        }
    }
}

#[test]
fn lengths_are_those_of_trees(rt: HostRuntime) -> Result<(), Fail> {
    let alloc = rt.alloc();
    for kind in [
        Kind::Shifted,
        Kind::Stored,
        Kind::Packed,
        Kind::Typed,
        Kind::ForAll,
        Kind::NoneOf,
    ] {
        let formula = formula_of(&rt, alloc, kind);
        let mut pool = Pool::new(alloc);
        let number = intern_formula(&mut pool, &formula).expect(&rt, "memory");
        let lens = lengths(alloc, &pool).expect(&rt, "memory");
        assert_eq!(rt; lens.len(), pool.len(), "{kind:?}");
        assert_eq!(rt; lens[number], formula_len(&formula), "{kind:?}");
    }
    Ok(())
}

//! Numerals that are too great for a search.

use fol::formula::{Formula, FormulaNode, Term, TermNode, Trigger};
use fol::operators::{Constant, Quantifier};
use std::alloc::Global;
use std::panic::Expect;
use std::process::Abort;
use std::test::Fail;
use substitution::wide_numerals::wide_numeral;

fn wide(value: u128) -> Term {
    Term {
        node: TermNode::Constant(Constant::Wide(value)),
    }
}

fn holds(rt: &impl Abort, alloc: Global, term: Term) -> Formula {
    Formula::holds(Box::new(alloc, term).expect(rt, "memory"))
}

// Where the numeral stands in a formula.
#[derive(Clone, Copy, Debug)]
enum Position {
    Side,
    Trigger,
    Body,
    Condition,
}

// For all values of a variable it holds; with this trigger.
fn quantified(rt: &impl Abort, alloc: Global, trigger: Term, body: Formula) -> Formula {
    let mut terms = Vec::new(alloc);
    terms.push(trigger).expect(rt, "memory");
    let mut triggers = Vec::new(alloc);
    triggers.push(Trigger { terms }).expect(rt, "memory");
    let body = Box::new(alloc, body).expect(rt, "memory");
    Formula {
        node: FormulaNode::Quantify(Quantifier::ForAll, 0, triggers, body),
    }
}

// The formula with a numeral at the place.
fn formula_with(rt: &impl Abort, alloc: Global, position: Position, numeral: Term) -> Formula {
    match position {
        Position::Side => Formula::at_most(
            Box::new(alloc, Term::variable(0)).expect(rt, "memory"),
            Box::new(alloc, numeral).expect(rt, "memory"),
        ),
        Position::Trigger => {
            let body = holds(rt, alloc, Term::variable(0));
            quantified(rt, alloc, numeral, body)
        }
        Position::Body => {
            let body = holds(rt, alloc, numeral);
            quantified(rt, alloc, Term::variable(0), body)
        }
        Position::Condition => {
            let condition = holds(rt, alloc, numeral);
            let choice = TermNode::If(
                Box::new(alloc, condition).expect(rt, "memory"),
                Box::new(alloc, Term::variable(0)).expect(rt, "memory"),
                Box::new(alloc, Term::variable(1)).expect(rt, "memory"),
            );
            holds(rt, alloc, Term { node: choice })
        }
    }
}

#[test]
fn great_numerals_are_found_at_each_position(rt: HostRuntime) -> Result<(), Fail> {
    let alloc = rt.alloc();
    for position in [
        Position::Side,
        Position::Trigger,
        Position::Body,
        Position::Condition,
    ] {
        for (value, found) in [
            (1 << 127, Some(1 << 127)),
            (u128::MAX - 1, Some(u128::MAX - 1)),
            (u128::MAX, None),
            ((1 << 127) - 1, None),
            (5, None),
        ] {
            let formula = formula_with(&rt, alloc, position, wide(value));
            assert_eq!(rt; wide_numeral(&formula), found, "{position:?} {value}");
        }
    }
    Ok(())
}

#[test]
fn numbers_with_a_sign_are_not_too_great(rt: HostRuntime) -> Result<(), Fail> {
    let alloc = rt.alloc();
    for value in [i128::MIN, -1, 0, i128::MAX] {
        let formula = formula_with(&rt, alloc, Position::Side, Term::number(value));
        assert_eq!(rt; wide_numeral(&formula), None, "{value}");
    }
    Ok(())
}

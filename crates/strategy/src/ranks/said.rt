//! What a branch states about formulas, up to congruence.

use crate::ranks::guess::{Guess, Quotient, difference, over_one, product, sum, whole};
use crate::ranks::outlook::{Outlook, both, denied, either};
use base::memory::NoMemory;
use congruence_closure::branch_classes::BranchClasses;
use fol::operators::{Binary, Comparison, Connective, Constant, Junction};
use indexmap::{IndexMap, IndexSet};
use std::alloc::Global;
use tableau::branch::PoolBranch;
use term_pool::node::{Leaf, Node, One, Two};
use term_pool::pool::Pool;
use term_pool::reading::first_formula;

/// The depth to which formulas and sums are inspected.
pub const DEPTH: u32 = 4;

/// What a branch states.
#[derive(Drop)]
pub struct Said<'a> {
    alloc: Global,
    pool: &'a Pool,
    classes: &'a BranchClasses,
    // The classes of formulas on the branch.
    stated: IndexSet<usize>,
    // The classes of formulas that entries negate.
    denied: IndexSet<usize>,
    // The numerals of classes that have one.
    numerals: IndexMap<usize, i128>,
    guess: Option<&'a Guess>,
}

/// A formula, or its negation.
#[derive(Clone, Copy)]
pub struct Part {
    pub formula: usize,
    pub is_denied: bool,
}

/// Formulas of which all hold, or at least one.
#[derive(Drop)]
pub struct Parts {
    pub junction: Junction,
    pub items: Vec<Part>,
}

/// The class of a number; `None` if it is not known.
pub fn class_of(classes: &BranchClasses, number: usize) -> Option<usize> {
    if classes.is_known(number) {
        Some(classes.class(number))
    } else {
        None
    }
}

/// The numeral with this number; `None` if it is no numeral.
pub fn numeral_at(pool: &Pool, number: usize) -> Option<i128> {
    match pool.node(number) {
        Some(Node::Leaf(Leaf::Constant(Constant::Num(value)))) => Some(value),
        _ => None,
    }
}

fn turned(junction: Junction, is_denied: bool) -> Junction {
    match (junction, is_denied) {
        (Junction::AllOf, true) => Junction::AnyOf,
        (Junction::AnyOf, true) => Junction::AllOf,
        (same, false) => same,
    }
}

// The formulas of a list, each as it is or negated.
fn listed(alloc: Global, pool: &Pool, list: usize, is_denied: bool) -> Result<Vec<Part>, NoMemory> {
    let mut parts = Vec::new(alloc);
    let mut rest = list;
    while let Some((formula, others)) = first_formula(pool, rest) {
        parts.push(Part { formula, is_denied })?;
        rest = others;
    }
    Ok(parts)
}

// The negated premise and the claim; or, for the negation, the premise and the negated claim.
fn implied(
    alloc: Global,
    left: usize,
    right: usize,
    is_denied: bool,
) -> Result<Vec<Part>, NoMemory> {
    let mut parts = Vec::new(alloc);
    parts.push(Part {
        formula: left,
        is_denied: !is_denied,
    })?;
    parts.push(Part {
        formula: right,
        is_denied,
    })?;
    Ok(parts)
}

/// The parts of a formula or of its negation, below at most one negation; `None` for an atom. `NoMemory` if memory runs
/// out.
pub fn parts_of(alloc: Global, pool: &Pool, part: Part) -> Result<Option<Parts>, NoMemory> {
    let (formula, is_denied) = match pool.denied(part.formula) {
        Some(inner) => (inner, !part.is_denied),
        None => (part.formula, part.is_denied),
    };
    match pool.node(formula) {
        Some(Node::One(One::Join(junction), list)) => Ok(Some(Parts {
            junction: turned(junction, is_denied),
            items: listed(alloc, pool, list, is_denied)?,
        })),
        Some(Node::Two(Two::Connect(Connective::Implies), left, right)) => Ok(Some(Parts {
            junction: turned(Junction::AnyOf, is_denied),
            items: implied(alloc, left, right, is_denied)?,
        })),
        _ => Ok(None),
    }
}

/// The sides of an equivalence or of the negation of one, and which of the two it is.
pub fn sides_of(pool: &Pool, part: Part) -> Option<(usize, usize, bool)> {
    let (formula, is_denied) = match pool.denied(part.formula) {
        Some(inner) => (inner, !part.is_denied),
        None => (part.formula, part.is_denied),
    };
    match pool.node(formula) {
        Some(Node::Two(Two::Connect(Connective::Iff), left, right)) => {
            Some((left, right, is_denied))
        }
        _ => None,
    }
}

impl<'a> Said<'a> {
    /// What the branch states, with these values, if there are any. `classes` are those of the branch. `NoMemory` if
    /// memory runs out.
    pub fn new(
        alloc: Global,
        pool: &'a Pool,
        branch: &PoolBranch,
        classes: &'a BranchClasses,
        guess: Option<&'a Guess>,
    ) -> Result<Said<'a>, NoMemory> {
        let mut said = Said {
            alloc,
            pool,
            classes,
            stated: IndexSet::new(alloc),
            denied: IndexSet::new(alloc),
            numerals: IndexMap::new(alloc),
            guess,
        };
        for i in 0..branch.len() {
            if let Some(entry) = branch.entry(i) {
                said.state(entry.formula)?;
            }
        }
        for number in classes.numbers() {
            said.note(*number)?;
        }
        Ok(said)
    }

    // Records that a formula is on the branch.
    fn state(&mut self, formula: usize) -> Result<(), NoMemory> {
        if let Some(class) = class_of(self.classes, formula) {
            self.stated.insert(class)?;
        }
        if let Some(inner) = self.pool.denied(formula) {
            if let Some(class) = class_of(self.classes, inner) {
                self.denied.insert(class)?;
            }
        }
        Ok(())
    }

    // Records a numeral for its class.
    fn note(&mut self, number: usize) -> Result<(), NoMemory> {
        if let Some(value) = numeral_at(self.pool, number) {
            if let Some(class) = class_of(self.classes, number) {
                self.numerals.insert(class, value)?;
            }
        }
        Ok(())
    }

    // The numeral of the class of a term; `None` if it has none.
    fn numeral(&self, term: usize) -> Option<i128> {
        let class = class_of(self.classes, term)?;
        match self.numerals.get(&class) {
            Some(value) => Some(*value),
            None => None,
        }
    }

    /// The value of a term computed from the numerals of classes alone; `None` if it is not known.
    pub fn known_value(&self, term: usize) -> Option<Quotient> {
        self.value(term, DEPTH, None)
    }

    /// The value of a term in the last solution of the rows; `None` if it is not known.
    pub fn guessed_value(&self, term: usize) -> Option<Quotient> {
        let guess = self.guess?;
        self.value(term, DEPTH, Some(guess))
    }

    fn value(&self, term: usize, depth: u32, guess: Option<&Guess>) -> Option<Quotient> {
        if let Some(number) = self.numeral(term) {
            return Some(whole(number));
        }
        if let Some(less) = depth.checked_sub(1) {
            if let Some(Node::Two(Two::Binary(operator), left, right)) = self.pool.node(term) {
                if is_sum(operator) {
                    let first = self.value(left, less, guess)?;
                    let second = self.value(right, less, guess)?;
                    return combined(operator, first, second);
                }
            }
        }
        guess?.value(term)
    }

    fn equation(&self, left: usize, right: usize) -> Outlook {
        let one = class_of(self.classes, left);
        if left == right || (one.is_some() && one == class_of(self.classes, right)) {
            return Outlook::Stands;
        }
        self.compared(left, right, Comparison::Eq)
    }

    // The outlook of a comparison of two terms, by their values.
    fn compared(&self, left: usize, right: usize, comparison: Comparison) -> Outlook {
        if let Some(is_true) = is_met(self.known_value(left), self.known_value(right), comparison) {
            return if is_true {
                Outlook::Stands
            } else {
                Outlook::Closed
            };
        }
        match is_met(
            self.guessed_value(left),
            self.guessed_value(right),
            comparison,
        ) {
            Some(true) => Outlook::Held,
            Some(false) => Outlook::Violated,
            None => Outlook::Open,
        }
    }

    fn atom(&self, formula: usize) -> Outlook {
        match self.pool.node(formula) {
            Some(Node::Two(Two::Compare(Comparison::Eq), left, right)) => {
                self.equation(left, right)
            }
            Some(Node::Two(Two::Compare(Comparison::Le), left, right)) => {
                self.compared(left, right, Comparison::Le)
            }
            _ => Outlook::Open,
        }
    }

    // The outlook of a formula by its class alone.
    fn stated(&self, formula: usize) -> Outlook {
        let Some(class) = class_of(self.classes, formula) else {
            return Outlook::Open;
        };
        if self.stated.contains(&class) {
            return Outlook::Stands;
        }
        if self.denied.contains(&class) {
            return Outlook::Closed;
        }
        Outlook::Open
    }

    /// The outlook of a formula or of its negation. `NoMemory` if memory runs out.
    pub fn outlook(&self, part: Part, depth: u32) -> Result<Outlook, NoMemory> {
        let stated = self.stated(part.formula);
        if stated != Outlook::Open {
            return Ok(if part.is_denied {
                denied(stated)
            } else {
                stated
            });
        }
        let Some(less) = depth.checked_sub(1) else {
            return Ok(Outlook::Open);
        };
        if let Some(parts) = parts_of(self.alloc, self.pool, part)? {
            let is_all = parts.junction == Junction::AllOf;
            let mut found = if is_all {
                Outlook::Stands
            } else {
                Outlook::Closed
            };
            for item in parts.items.iter() {
                let one = self.outlook(*item, less)?;
                found = if is_all {
                    both(found, one)
                } else {
                    either(found, one)
                };
            }
            return Ok(found);
        }
        match self.pool.denied(part.formula) {
            Some(inner) => self.outlook(
                Part {
                    formula: inner,
                    is_denied: !part.is_denied,
                },
                less,
            ),
            None => {
                let found = self.atom(part.formula);
                Ok(if part.is_denied { denied(found) } else { found })
            }
        }
    }
}

// Decides whether the values of both terms satisfy the comparison; `None` if they are not known.
fn is_met(left: Option<Quotient>, right: Option<Quotient>, comparison: Comparison) -> Option<bool> {
    let (first, second) = over_one(left?, right?)?;
    match comparison {
        Comparison::Eq => Some(first == second),
        Comparison::Le => Some(first <= second),
    }
}

fn is_sum(operator: Binary) -> bool {
    match operator {
        Binary::Add | Binary::Sub | Binary::Mul => true,
        _ => false,
    }
}

fn combined(operator: Binary, left: Quotient, right: Quotient) -> Option<Quotient> {
    match operator {
        Binary::Add => sum(left, right),
        Binary::Sub => difference(left, right),
        Binary::Mul => product(left, right),
        _ => None,
    }
}

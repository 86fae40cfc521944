//! Which comparisons formulas state.

ghost use Rattle.std.specs.Prelude.{◌≡◌, ℕ, None, MatchOption};
ghost use Rattle.certificates.specs.Linear.{row_of, negated_row_of};
ghost use Rattle.term_pool.specs.Pools.{IsMade};
ghost use Rattle.term_pool.specs.declared.node.Node.TheVariants.{One as OneNode, Two as TwoNode};
ghost use Rattle.row_reasoning.specs.Entries.{formula_at, HasSides, stated_sides, denied_sides};

use fol::operators::Comparison;
use term_pool::node::{Node, One, Two};
use term_pool::pool::Pool;

/// The sides of a comparison, by number: `lesser`, plus 1 if the comparison is strict, is at most `greater`, or both
/// are equal.
#[derive(Clone, Copy)]
pub(crate) struct Sides {
    pub(crate) lesser: usize,
    pub(crate) greater: usize,
    pub(crate) is_strict: bool,
    pub(crate) is_equation: bool,
}

fn stated(head: Comparison, a: usize, b: usize) -> Sides
    ensures { result ≡ stated_sides head a b }
{
    Sides {
        lesser: a,
        greater: b,
        is_strict: false,
        is_equation: match head {
            Comparison::Eq => true,
            Comparison::Le => false,
        },
    }
}

fn denied_sides(head: Comparison, a: usize, b: usize) -> Option<Sides>
    ensures { result ≡ denied_sides head a b }
{
    match head {
        Comparison::Eq => None,
        Comparison::Le => Some(Sides {
            lesser: b,
            greater: a,
            is_strict: true,
            is_equation: false,
        }),
    }
}

// The sides of a binary formula.
fn two_sides(pool: &Pool, head: Two, a: usize, b: usize) -> Option<Sides>
    ensures { (n : ℕ) → IsMade pool.now n (TwoNode head a b) → MatchOption result (row_of (formula_at pool.now n) ≡ None) (HasSides pool.now n (row_of (formula_at pool.now n))) }
{
    let _pool = pool;
    match head {
        Two::Compare(head) => Some(stated(head, a, b)),
        _ => None,
    }
}

// The sides of the negation of a binary formula.
fn denied_two(pool: &Pool, head: Two, a: usize, b: usize) -> Option<Sides>
    ensures { (n : ℕ) → IsMade pool.now n (TwoNode head a b) → MatchOption result (negated_row_of (formula_at pool.now n) ≡ None) (HasSides pool.now n (negated_row_of (formula_at pool.now n))) }
{
    let _pool = pool;
    match head {
        Two::Compare(head) => denied_sides(head, a, b),
        _ => None,
    }
}

// The sides of the negation of the formula with this number.
fn denied(pool: &Pool, number: usize) -> Option<Sides>
    ensures { MatchOption result (negated_row_of (formula_at pool.now number) ≡ None) (HasSides pool.now number (negated_row_of (formula_at pool.now number))) }
{
    match pool.node(number) {
        Some(Node::Two(head, a, b)) => denied_two(pool, head, a, b),
        _ => None,
    }
}

// The sides of a unary formula.
fn one_sides(pool: &Pool, head: One, a: usize) -> Option<Sides>
    ensures { (n : ℕ) → IsMade pool.now n (OneNode head a) → MatchOption result (row_of (formula_at pool.now n) ≡ None) (HasSides pool.now n (row_of (formula_at pool.now n))) }
{
    match head {
        One::Not => denied(pool, a),
        _ => None,
    }
}

/// The sides of the formula with this number; `None` if it states no comparison.
pub(crate) fn sides_of(pool: &Pool, number: usize) -> Option<Sides>
    ensures { MatchOption result (row_of (formula_at pool.now number) ≡ None) (HasSides pool.now number (row_of (formula_at pool.now number))) }
{
    match pool.node(number) {
        Some(Node::One(head, a)) => one_sides(pool, head, a),
        Some(Node::Two(head, a, b)) => two_sides(pool, head, a, b),
        _ => None,
    }
}

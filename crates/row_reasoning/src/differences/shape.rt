//! Terms as sums.

ghost use Rattle.std.specs.Prelude.{◌≡◌, MatchOption};
ghost use Rattle.tableau.specs.PoolBranches.{IsTermNumber};
ghost use Rattle.row_reasoning.specs.DifferencesSums.{pair_in, IsPair, IsNoPair, IsShape};

use crate::closings::chosen::is_no_sum;
use term_pool::node::{Node, Two};
use term_pool::pool::Pool;

/// A binary head with its two parts, by number.
#[derive(Clone, Copy)]
pub(crate) struct Pair {
    pub(crate) head: Two,
    pub(crate) first: usize,
    pub(crate) second: usize,
}

/// The form of a term as a sum.
#[derive(Clone, Copy)]
pub(crate) enum Shape {
    /// No sum.
    Unknown,
    Numeral,
    /// A sum or a difference of two terms, or a product with a numeral.
    Sum(Pair),
}

fn pair_in(node: Node) -> Option<Pair>
    ensures { result ≡ pair_in node }
{
    match node {
        Node::Two(head, first, second) => Some(Pair {
            head,
            first,
            second,
        }),
        _ => None,
    }
}

/// The head and the parts of the node with this number; `None` if it is not binary.
pub(crate) fn pair_of(pool: &Pool, number: usize) -> Option<Pair>
    ensures { MatchOption result (IsNoPair pool.now number) (IsPair pool.now number) }
{
    match pool.node(number) {
        Some(node) => pair_in(node),
        None => None,
    }
}

/// The form of the term with this number as a sum.
pub(crate) fn shape_of(pool: &Pool, term: usize) -> Shape
    requires { IsTermNumber pool.now term }
    ensures { IsShape pool.now term result }
{
    if is_no_sum(pool, term) {
        return Shape::Unknown;
    }
    match pair_of(pool, term) {
        Some(pair) => Shape::Sum(pair),
        None => Shape::Numeral,
    }
}

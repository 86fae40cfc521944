//! Terms as sums.

ghost use Rattle.std.specs.Prelude.{◌≡◌};
ghost use Rattle.certificates.specs.Linear.{numeral_of};
ghost use Rattle.term_pool.specs.declared.node.Node.TheVariants.{Two as TwoNode};
ghost use Rattle.term_pool.specs.declared.node.Two.TheVariants.{Binary as BinaryHead};
ghost use Rattle.tableau.specs.PoolBranches.{IsTermNumber};
ghost use Rattle.row_reasoning.specs.Shapes.{term_at, numeral_in, numeral_in_leaf, leaf_shape, product_shape, shape_in, IsShape};

use fol::operators::{Binary, Constant};
use term_pool::node::{Leaf, Node, Two};
use term_pool::pool::Pool;

/// The form of a term as a sum, its parts by number.
#[derive(Clone, Copy)]
pub(crate) enum Shape {
    Numeral(i128),
    /// The sum of two terms, or their difference.
    Joined(usize, usize, bool),
    /// A term, this many times.
    Multiple(i128, usize),
    /// No sum.
    Unknown,
}

fn leaf_numeral(head: Leaf) -> Option<i128>
    ensures { result ≡ numeral_in_leaf head }
{
    match head {
        Leaf::Constant(Constant::Num(i)) => Some(i),
        _ => None,
    }
}

fn node_numeral(node: Node) -> Option<i128>
    ensures { result ≡ numeral_in node }
{
    match node {
        Node::Leaf(head) => leaf_numeral(head),
        _ => None,
    }
}

// The value of a numeral; `None` if the term is no numeral.
fn numeral(pool: &Pool, number: usize) -> Option<i128>
    ensures { result ≡ numeral_of (term_at pool.now number) }
{
    match pool.node(number) {
        Some(node) => node_numeral(node),
        None => None,
    }
}

fn leaf_shape(head: Leaf) -> Shape
    ensures { result ≡ leaf_shape (numeral_in_leaf head) }
{
    match leaf_numeral(head) {
        Some(i) => Shape::Numeral(i),
        None => Shape::Unknown,
    }
}

fn product_shape(pool: &Pool, a: usize, b: usize) -> Shape
    ensures { result ≡ product_shape (numeral_of (term_at pool.now a)) (numeral_of (term_at pool.now b)) a b }
{
    match (numeral(pool, a), numeral(pool, b)) {
        (Some(c), _) => Shape::Multiple(c, b),
        (None, Some(c)) => Shape::Multiple(c, a),
        (None, None) => Shape::Unknown,
    }
}

fn binary_shape(pool: &Pool, head: Binary, a: usize, b: usize) -> Shape
    ensures { result ≡ shape_in pool.now (TwoNode (BinaryHead head) a b) }
{
    match head {
        Binary::Add => Shape::Joined(a, b, false),
        Binary::Sub => Shape::Joined(a, b, true),
        Binary::Mul => product_shape(pool, a, b),
        _ => Shape::Unknown,
    }
}

fn node_shape(pool: &Pool, node: Node) -> Shape
    ensures { result ≡ shape_in pool.now node }
{
    match node {
        Node::Leaf(head) => leaf_shape(head),
        Node::Two(Two::Binary(head), a, b) => binary_shape(pool, head, a, b),
        _ => Shape::Unknown,
    }
}

/// The form of the term with this number as a sum.
pub(crate) fn shape_of(pool: &Pool, number: usize) -> Shape
    requires { IsTermNumber pool.now number }
    ensures { IsShape pool.now number result }
{
    match pool.node(number) {
        Some(node) => node_shape(pool, node),
        None => Shape::Unknown,
    }
}

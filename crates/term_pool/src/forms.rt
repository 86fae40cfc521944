//! The forms of nodes.

ghost use Rattle.std.specs.Prelude.{◌≡◌};
ghost use Rattle.term_pool.specs.Forms.{is_term_node, is_formula_node, denied_part, sides_of};

use crate::node::{Leaf, Node, One, Three, Two};
use fol::operators::Comparison;

/// Decides whether a node is that of a term.
pub(crate) fn is_term_node(node: Node) -> bool
    ensures { result ≡ is_term_node node }
{
    match node {
        Node::Leaf(Leaf::Var(_) | Leaf::Constant(_)) => true,
        Node::One(One::Unary(_), _) => true,
        Node::Two(Two::Binary(_) | Two::Pack | Two::Field(_), _, _) => true,
        Node::Three(Three::Ternary(_) | Three::SetField(_) | Three::If, _, _, _) => true,
        _ => false,
    }
}

/// Decides whether a node is that of a formula.
pub(crate) fn is_formula_node(node: Node) -> bool
    ensures { result ≡ is_formula_node node }
{
    match node {
        Node::One(One::Holds | One::Not | One::Join(_), _) => true,
        Node::Two(Two::Compare(_) | Two::Is | Two::Connect(_) | Two::Quantify(_, _), _, _) => true,
        _ => false,
    }
}

/// Returns the number of the formula that a node negates; `None` if the node is no negation.
pub fn denied_part(node: Node) -> Option<usize>
    ensures { result ≡ denied_part node }
{
    match node {
        Node::One(One::Not, inner) => Some(inner),
        _ => None,
    }
}

/// Returns the numbers of the sides of the equation that a node is; `None` if the node is no equation.
pub fn sides_of(node: Node) -> Option<(usize, usize)>
    ensures { result ≡ sides_of node }
{
    match node {
        Node::Two(Two::Compare(Comparison::Eq), left, right) => Some((left, right)),
        _ => None,
    }
}

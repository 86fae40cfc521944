//! Nodes of variables.

ghost use Rattle.std.specs.Prelude.{◌≡◌, ℕ, ◌<◌, ◌∷◌, ◌++◌, List, [], Some, length, OnOk, IfOk, MatchOption};
ghost use Rattle.term_pool.specs.Pools.{IsMade};
ghost use Rattle.term_pool.specs.declared.node.Node.TheVariants.{Leaf as LeafNode};
ghost use Rattle.congruence_closure.specs.Trees.{BoundTree, LeafTree, among, under, leaf_tree};
ghost use Rattle.congruence_closure.specs.Nodes.{AreNodes};
ghost use Rattle.congruence_closure.specs.Numbers.{AreNumbered, IsNewFor};
ghost use Rattle.congruence_closure.specs.Known.{IsAdded};

use crate::branch_classes::numbered::{Numbered, add};
use base::memory::NoMemory;
use indexmap::IndexMap;
use std::alloc::Global;
use term_pool::node::{Leaf, Node, One, Two};

/// The list of variables with one more at its front.
pub(crate) fn with_variable(
    alloc: Global,
    variable: u32,
    bound: &[u32],
) -> Result<Vec<u32>, NoMemory>
    ensures { IfOk result (λ more. more.items ≡ variable ∷ bound.now) }
{
    let mut more = Vec::new(alloc);
    more.push(variable)?;
    for other in bound {
        more.push(*other)?;
    }
    Ok(more)
}

/// The variable that a head symbol binds.
pub(crate) fn variable_of(head: Two) -> Option<u32>
    ensures { MatchOption result ((bound : List ℕ) → under head bound ≡ bound) (λ n. (bound : List ℕ) → under head bound ≡ n ∷ bound) }
{
    match head {
        Two::Quantify(_, n) => Some(n),
        _ => None,
    }
}

fn is_among(variable: u32, bound: &[u32]) -> bool
    ensures { result ≡ among variable bound.now }
{
    match bound.split_first() {
        Some((first, rest)) => variable == *first || is_among(variable, rest),
        None => false,
    }
}

// The variable of a leaf, if it is one of these.
fn bound_variable(bound: &[u32], head: Leaf) -> Option<u32>
    ensures { MatchOption result (leaf_tree bound.now head ≡ LeafTree head) (λ n. leaf_tree bound.now head ≡ BoundTree n) }
{
    match head {
        Leaf::Var(n) => { if is_among(n, bound) { Some(n) } else { None } }
        _ => None,
    }
}

/// Adds the node of a leaf with this number: for a bound variable the negation of the type parameter with the
/// variable's number.
pub(crate) fn add_leaf(
    alloc: Global,
    nodes: &mut Numbered,
    bound: &[u32],
    number: usize,
    head: Leaf,
) -> Result<usize, NoMemory>
    requires nodes { AreNodes nodes.old.classes.nodes }
    ensures equations { OnOk result (nodes.new.classes.equations ≡ nodes.old.classes.equations) }
    ensures added { IfOk result (λ node. (pool : List Node) (number : ℕ) → IsMade pool number (LeafNode head) → IsAdded pool bound.now number nodes.old.classes.nodes nodes.new.classes.nodes node) }
    ensures numbered { IfOk result (λ node. (pool : List Node) → IsMade pool number (LeafNode head) → AreNumbered pool nodes.old.classes.nodes nodes.old.numbers.items → IsNewFor pool number nodes.old.classes.nodes nodes.new.classes.nodes nodes.old.numbers.items nodes.new.numbers.items node) }
{
    match bound_variable(bound, head) {
        Some(n) => {
            let parameter = add(alloc, nodes, Node::Leaf(Leaf::TypeParam(n)), number)?;
            add(alloc, nodes, Node::One(One::Not, parameter), number)
        }
        None => add(alloc, nodes, Node::Leaf(head), number),
    }
}

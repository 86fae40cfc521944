//! One term for each class of unknowns: a shallowest one among the class's terms that are no sums.

ghost use Rattle.std.specs.Prelude.{◌≡◌, ◌↔◌, ◌<◌, Some, None, length, nat_eq, IsTrue, IfOk, All, MatchBool};
ghost use Rattle.indexmap.specs.IndexMap.{get};
ghost use Rattle.fol.specs.FormulaData.{BinaryTerm, MulTerm};
ghost use Rattle.certificates.specs.Linear.{numeral_of};
ghost use Rattle.tableau.specs.PoolBranches.{IsTermNumber};
ghost use Rattle.row_reasoning.specs.Shapes.{term_at};
ghost use Rattle.row_reasoning.specs.Chosen.{IsNoSum};
ghost use Rattle.row_reasoning.specs.Shallowest.{is_numeral_node, HasNumeral, IsNoSumNode, AreWithin, IsBetter, IsNoBetter, AreShallowest};

use base::memory::NoMemory;
use fol::operators::{Binary, Constant};
use indexmap::IndexMap;
use std::alloc::Global;
use term_pool::node::{Leaf, Node, Two};
use term_pool::numbers::{look_up, note};
use term_pool::pool::Pool;

// ---- terms that are no sums

// Decides whether a node is a numeral.
fn is_numeral_node(node: Node) -> bool
    ensures { result ≡ is_numeral_node node }
{
    match node {
        Node::Leaf(Leaf::Constant(Constant::Num(_))) => true,
        _ => false,
    }
}

// Decides whether a term is a numeral.
fn is_numeral(pool: &Pool, term: usize) -> bool
    ensures { MatchBool result (HasNumeral (term_at pool.now term)) (numeral_of (term_at pool.now term) ≡ None) }
{
    match pool.node(term) {
        Some(node) => is_numeral_node(node),
        None => false,
    }
}

// Decides whether neither factor is a numeral.
fn has_no_numeral(pool: &Pool, left: usize, right: usize) -> bool
    ensures { IsTrue result ↔ IsNoSum (MulTerm (term_at pool.now left) (term_at pool.now right)) }
{
    if is_numeral(pool, left) {
        return false;
    }
    if is_numeral(pool, right) {
        return false;
    }
    true
}

// Decides whether a binary term is no sum.
fn is_no_sum_of(pool: &Pool, head: Binary, left: usize, right: usize) -> bool
    ensures { IsTrue result ↔ IsNoSum (BinaryTerm head (term_at pool.now left) (term_at pool.now right)) }
{
    match head {
        Binary::Add => false,
        Binary::Sub => false,
        Binary::Mul => has_no_numeral(pool, left, right),
        _ => true,
    }
}

// Decides whether the term of a node is no sum.
fn is_no_sum_node(pool: &Pool, node: Node) -> bool
    ensures { IsTrue result ↔ IsNoSumNode pool.now node }
{
    match node {
        Node::Two(Two::Binary(head), left, right) => is_no_sum_of(pool, head, left, right),
        Node::Leaf(Leaf::Constant(Constant::Num(_))) => false,
        _ => true,
    }
}

/// Decides whether a term is no sum: neither a numeral nor a sum, a difference or a product with a numeral.
pub fn is_no_sum(pool: &Pool, term: usize) -> bool
    requires { IsTermNumber pool.now term }
    ensures { IsTrue result ↔ IsNoSum (term_at pool.now term) }
{
    match pool.node(term) {
        Some(node) => is_no_sum_node(pool, node),
        None => true,
    }
}

// ---- choices

// Decides whether the term is shallower than the one chosen for the class, or the class has no chosen term.
fn is_better(pool: &Pool, chosen: &IndexMap<usize, usize>, class: usize, term: usize) -> bool
    requires term { term < length pool.now }
    requires chosen { AreWithin pool.now (get nat_eq chosen.now) }
    ensures { MatchBool result (IsBetter pool.now (get nat_eq chosen.now) class term) (IsNoBetter pool.now (get nat_eq chosen.now) class term) }
{
    match look_up(chosen, class) {
        Some(other) => pool.depth(term) < pool.depth(other),
        None => true,
    }
}

/// Returns, for each class, the number of a shallowest one of these terms that is in the class and no sum; a class
/// without such a term has no entry. The keys are the representatives of the classes. `NoMemory` if memory runs out.
pub fn chosen_terms(
    alloc: Global,
    pool: &Pool,
    names: &[usize],
    terms: &[usize],
) -> Result<IndexMap<usize, usize>, NoMemory>
    requires numbers { All (IsTermNumber pool.now) terms.now }
    requires named { All (λ n. n < length names.now) terms.now }
    ensures { IfOk result (λ chosen. AreShallowest pool.now names.now terms.now (get nat_eq chosen)) }
{
    let mut chosen = IndexMap::new(alloc);
    for term in terms {
        if !is_no_sum(pool, *term) {
            continue;
        }
        let class = names[*term];
        if is_better(pool, &chosen, class, *term) {
            note(&mut chosen, class, *term)?;
        }
    }
    Ok(chosen)
}

//! The lengths of the items of a pool in bytes.

ghost use Rattle.std.specs.Prelude.{◌≡◌, ℕ, ◌+◌, List, length, IfOk};
ghost use Rattle.certificates.specs.Lengths.{capped, constant_length, binary_length, term_length, formula_length, compared_length};
ghost use Rattle.term_pool.specs.Pools.{item_of, items, HasParts};
ghost use Rattle.term_pool.specs.declared.node.Node.{Node};
ghost use Rattle.tableau.specs.Numbers.{formula_at};
ghost use Rattle.search.specs.Applications.{term_at};
ghost use Rattle.certificate_text.specs.Lengths.{item_length, length_at, AreFirstLengths, AreLengths, leaf_bytes, one_bytes, two_bytes, three_bytes};

use base::memory::NoMemory;
use fol::operators::{Binary, Constant};
use std::alloc::Global;
use term_pool::node::{Leaf, Node, One, Three, Two};
use term_pool::pool::Pool;

/// The sum, capped at the greatest number of 64 bits.
pub(crate) fn sum(left: u64, right: u64) -> u64
    ensures { result ≡ capped (left + right) }
{
    left.saturating_add(right)
}

fn constant_bytes(constant: Constant) -> u64
    ensures { result ≡ constant_length constant }
{
    match constant {
        Constant::Num(_) | Constant::Wide(_) => 17,
        _ => 1,
    }
}

fn leaf_bytes(head: Leaf) -> u64
    ensures { result ≡ leaf_bytes head }
{
    match head {
        Leaf::Var(_) | Leaf::TypeParam(_) => 5,
        Leaf::Constant(constant) => constant_bytes(constant),
        Leaf::NilTerms | Leaf::NilTriggers | Leaf::NilFormulas | Leaf::NilTypes | Leaf::NilBytes =>
            0,
        _ => 1,
    }
}

fn one_bytes(head: One) -> u64
    ensures { result ≡ one_bytes head }
{
    match head {
        One::Join(_) | One::TypeTuple => 5,
        _ => 1,
    }
}

fn binary_bytes(operator: Binary) -> u64
    ensures { result ≡ binary_length operator }
{
    match operator {
        Binary::Shl(_) | Binary::Shr(_) => 2,
        _ => 1,
    }
}

fn two_bytes(head: Two) -> u64
    ensures { result ≡ two_bytes head }
{
    match head {
        Two::Binary(operator) => binary_bytes(operator),
        Two::Pack | Two::Field(_) => 5,
        Two::Quantify(_, _) => 9,
        Two::ConsTrigger => 4,
        Two::ConsTerm | Two::ConsFormula | Two::ConsType => 0,
        _ => 1,
    }
}

fn three_bytes(head: Three) -> u64
    ensures { result ≡ three_bytes head }
{
    match head {
        Three::SetField(_) => 5,
        Three::TypeStruct(_) => 29,
        _ => 1,
    }
}

fn len_at(lens: &[u64], number: usize) -> u64
    ensures { result ≡ length_at lens.now number }
{
    match lens.get(number) {
        Some(len) => *len,
        None => 0,
    }
}

// The length of the item of a node over items of known lengths.
fn node_len(lens: &[u64], node: Node) -> u64
    ensures { (ns : List Node) → AreFirstLengths ns lens.now → HasParts ns (length lens.now) node → result ≡ capped (item_length (item_of (items ns) node)) }
{
    match node {
        Node::Leaf(head) => leaf_bytes(head),
        Node::One(head, a) => sum(one_bytes(head), len_at(lens, a)),
        Node::Two(head, a, b) => sum(two_bytes(head), sum(len_at(lens, a), len_at(lens, b))),
        Node::Three(head, a, b, c) => {
            let rest = sum(len_at(lens, b), len_at(lens, c));
            sum(three_bytes(head), sum(len_at(lens, a), rest))
        }
    }
}

/// The number of bytes of each item of the pool, or 2^64 - 1 if it is greater. It takes time linear in the pool.
pub fn lengths(alloc: Global, pool: &Pool) -> Result<Vec<u64>, NoMemory>
    ensures { IfOk result (λ lens. AreLengths pool.now lens.items) }
{
    let mut lens = Vec::new(alloc);
    while let Some(node) = pool.node(lens.len()) {
        let len = node_len(lens.as_slice(), node);
        lens.push(len)?;
    }
    Ok(lens)
}

/// The number of bytes of the term with this number, by the lengths of the pool's items. A number of no term counts as
/// `Nothing`.
pub(crate) fn term_len(pool: &Pool, lens: &[u64], number: usize) -> u64
    requires { AreLengths pool.now lens.now }
    ensures { result ≡ capped (term_length (term_at pool.now number)) }
{
    if !pool.is_term(number) {
        return 1;
    }
    len_at(lens, number)
}

/// The number of bytes of the formula with this number. A number of no formula counts as the empty disjunction.
pub(crate) fn formula_len(pool: &Pool, lens: &[u64], number: usize) -> u64
    requires { AreLengths pool.now lens.now }
    ensures { result ≡ capped (formula_length (formula_at pool.now number)) }
{
    if !pool.is_formula(number) {
        return 5;
    }
    len_at(lens, number)
}

/// The number of bytes of the left side of the comparison with this number; 0 for another formula.
pub(crate) fn left_len(pool: &Pool, lens: &[u64], number: usize) -> u64
    requires { AreLengths pool.now lens.now }
    ensures { result ≡ capped (compared_length (formula_at pool.now number)) }
{
    match pool.node(number) {
        Some(Node::Two(Two::Compare(_), left, _)) => len_at(lens, left),
        _ => 0,
    }
}

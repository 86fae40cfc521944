//! The nodes of terms and formulas.

ghost use Rattle.std.specs.Prelude.{◌≡◌, ◌↔◌, IsTrue};
ghost use Rattle.std.specs.Cmp.{decided, partial_equiv_from_equiv};
ghost use Rattle.std.specs.Hash.{same_Alike};
ghost use Rattle.term_pool.specs.NodeHash.{number_in, number_in_leaf, first_in, second_in, third_in};

use base::types::Width;
use fol::operators::{
    Binary, Comparison, Connective, Constant, Junction, Quantifier, Ternary, Unary,
};
use std::hash::{Hash, Hasher};

/// The head symbols of nodes without parts.
#[derive(Clone, Copy, PartialEq, Eq)]
pub enum Leaf {
    /// The variable with this number.
    Var(u32),
    Constant(Constant),
    TypeBool,
    TypeInt(Width),
    TypeNum,
    TypeAddress,
    TypeSigner,
    /// The type parameter with this number.
    TypeParam(u32),
    NilTerms,
    NilTriggers,
    NilFormulas,
    NilTypes,
    NilBytes,
}

/// The head symbols of nodes with one part.
#[derive(Clone, Copy, PartialEq, Eq)]
pub enum One {
    Unary(Unary),
    Holds,
    Not,
    /// The junction of a list of formulas.
    Join(Junction),
    TypeVector,
    TypeShared,
    TypeMutable,
    /// The tuple of a list of types.
    TypeTuple,
    /// The byte list with this byte before the part.
    ConsByte(u8),
}

/// The head symbols of nodes with two parts.
#[derive(Clone, Copy, PartialEq, Eq)]
pub enum Two {
    Binary(Binary),
    /// The struct of a type with a list of terms as fields.
    Pack,
    /// The field with this number, of a type and a term.
    Field(u32),
    Compare(Comparison),
    /// The typing of a term: a type and a term.
    Is,
    Connect(Connective),
    /// The quantifier over the variable with this number: triggers and a formula.
    Quantify(Quantifier, u32),
    /// A list with one more item before it, as are the other three.
    ConsTerm,
    ConsTrigger,
    ConsFormula,
    ConsType,
}

/// The head symbols of nodes with three parts.
#[derive(Clone, Copy, PartialEq, Eq)]
pub enum Three {
    Ternary(Ternary),
    /// The field with this number, of a type, a struct and the field's new value.
    SetField(u32),
    /// The choice by a formula between two terms.
    If,
    /// The struct of a module at this address: the bytes of the module's name, those of its own name, and a list of
    /// types.
    TypeStruct(u128),
}

/// A term, a formula, a type, or a list of such: a head symbol and the numbers of its parts.
#[derive(Clone, Copy)]
pub enum Node {
    Leaf(Leaf),
    One(One, usize),
    Two(Two, usize, usize),
    Three(Three, usize, usize, usize),
}

/// Decides whether two nodes are equal.
pub fn are_one(left: Node, right: Node) -> bool
    ensures { IsTrue result ↔ (left ≡ right) }
{
    match (left, right) {
        (Node::Leaf(h), Node::Leaf(k)) => h == k,
        (Node::One(h, a), Node::One(k, b)) => h == k && a == b,
        (Node::Two(h, a, b), Node::Two(k, c, d)) => h == k && a == c && b == d,
        (Node::Three(h, a, b, c), Node::Three(k, d, e, f)) => {
            h == k && a == d && b == e && c == f
        }
        _ => false,
    }
}

impl PartialEq for Node {
    ghost use Rattle.term_pool.specs.NodeCodes.{same_node, same_node_decides};

    ghost eq = { same_node };

    ghost laws = { partial_equiv_from_equiv (decided same_node same_node_decides) };

    fn eq(&self, other: &Node) -> bool {
        are_one(*self, *other)
    }
}

impl Eq for Node {
    ghost use Rattle.term_pool.specs.NodeCodes.{same_node, same_node_decides};

    ghost laws = { decided same_node same_node_decides };
}

// A number that mostly differs for different heads of nodes with the same parts.
fn number_of(node: Node) -> i128
    ensures { result ≡ number_in node }
{
    match node {
        Node::Leaf(head) => leaf_number(head),
        Node::One(One::ConsByte(byte), _) => i128::from(byte),
        Node::One(_, _) => 0,
        Node::Two(Two::Field(k), _, _) => i128::from(k),
        Node::Two(Two::Quantify(_, n), _, _) => i128::from(n),
        Node::Two(_, _, _) => 0,
        Node::Three(Three::SetField(k), _, _, _) => i128::from(k),
        Node::Three(Three::TypeStruct(address), _, _, _) => (address / 2) as i128,
        Node::Three(_, _, _, _) => 0,
    }
}

fn leaf_number(head: Leaf) -> i128
    ensures { result ≡ number_in_leaf head }
{
    match head {
        Leaf::Var(n) => i128::from(n),
        Leaf::Constant(Constant::Num(i)) => i,
        Leaf::Constant(Constant::Wide(u)) => (u / 2) as i128,
        Leaf::TypeParam(n) => i128::from(n),
        _ => 0,
    }
}

fn first_part(node: Node) -> usize
    ensures { result ≡ first_in node }
{
    match node {
        Node::Leaf(_) => 0,
        Node::One(_, a) | Node::Two(_, a, _) | Node::Three(_, a, _, _) => a,
    }
}

fn second_part(node: Node) -> usize
    ensures { result ≡ second_in node }
{
    match node {
        Node::Leaf(_) | Node::One(_, _) => 0,
        Node::Two(_, _, b) | Node::Three(_, _, b, _) => b,
    }
}

fn third_part(node: Node) -> usize
    ensures { result ≡ third_in node }
{
    match node {
        Node::Three(_, _, _, c) => c,
        _ => 0,
    }
}

impl Hash for Node {
    ghost use Rattle.term_pool.specs.NodeCodes.{same_node_decides};
    ghost use Rattle.term_pool.specs.NodeHash.{hashed};

    ghost hash_input = { hashed };

    ghost respects_eq = { (same_Alike hashed same_node_decides).fed };

    fn hash<H: Hasher>(&self, state: &mut H) {
        number_of(*self).hash(state);
        first_part(*self).hash(state);
        second_part(*self).hash(state);
        third_part(*self).hash(state);
    }
}

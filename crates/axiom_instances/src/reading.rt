//! The top-level forms of terms and types given by number.

ghost use Rattle.std.specs.Prelude.{◌≡◌, MatchOption, is_some};
ghost use Rattle.certificates.specs.Linear.{numeral_of};
ghost use Rattle.term_pool.specs.Pools.{IsMade};
ghost use Rattle.term_pool.specs.declared.node.Node.TheVariants.{Leaf as LeafNode, One as OneNode, Two as TwoNode, Three as ThreeNode};
ghost use Rattle.axiom_instances.specs.Numbers.{HasForm, HasTypeForm, IsVector, term_at};
ghost use Rattle.axiom_instances.specs.PairRows.{IsNoVector};
ghost use Rattle.axiom_instances.specs.Rows.{is_blank, divisor_kind, divisor_of};

use base::types::Width;
use fol::operators::{Binary, Constant, Ternary, Unary};
use term_pool::node::{Leaf, Node, One, Three, Two};
use term_pool::pool::Pool;

/// The top-level form of a term, with the numbers of its parts.
#[derive(Clone, Copy)]
pub enum TermForm {
    Constant(Constant),
    Unary(Unary, usize),
    Binary(Binary, usize, usize),
    Ternary(Ternary, usize, usize, usize),
    /// A choice: a formula and two terms.
    If(usize, usize, usize),
    /// A struct: a type and a list of terms.
    Pack(usize, usize),
    /// A struct with the field with this number replaced: a type and two terms.
    SetField(u32, usize, usize, usize),
    /// A variable, a field, or no term.
    Other,
}

/// The top-level form of a type.
#[derive(Clone, Copy)]
pub(crate) enum TypeForm {
    Bool,
    Int(Width),
    Address,
    Signer,
    /// A vector type of items of this type.
    Vector(usize),
    Struct,
    Other,
}

/// The kind of a divisor: 0, a numeral from 1, or something else.
#[derive(Clone, Copy)]
pub(crate) enum DivisorKind {
    IsZero,
    IsFromOne,
    IsOther,
}

// ---- terms

fn leaf_form(pool: &Pool, term: usize, head: Leaf) -> TermForm
    requires { IsMade pool.now term (LeafNode head) }
    ensures { HasForm pool.now term result }
{
    match head {
        Leaf::Constant(constant) => TermForm::Constant(constant),
        _ => TermForm::Other,
    }
}

fn one_form(pool: &Pool, term: usize, head: One, a: usize) -> TermForm
    requires { IsMade pool.now term (OneNode head a) }
    ensures { HasForm pool.now term result }
{
    match head {
        One::Unary(operator) => TermForm::Unary(operator, a),
        _ => TermForm::Other,
    }
}

fn two_form(pool: &Pool, term: usize, head: Two, a: usize, b: usize) -> TermForm
    requires { IsMade pool.now term (TwoNode head a b) }
    ensures { HasForm pool.now term result }
{
    match head {
        Two::Binary(operator) => TermForm::Binary(operator, a, b),
        Two::Pack => TermForm::Pack(a, b),
        _ => TermForm::Other,
    }
}

fn three_form(pool: &Pool, term: usize, head: Three, a: usize, b: usize, c: usize) -> TermForm
    requires { IsMade pool.now term (ThreeNode head a b c) }
    ensures { HasForm pool.now term result }
{
    match head {
        Three::Ternary(operator) => TermForm::Ternary(operator, a, b, c),
        Three::SetField(k) => TermForm::SetField(k, a, b, c),
        Three::If => TermForm::If(a, b, c),
        Three::TypeStruct(_) => TermForm::Other,
    }
}

/// The top-level form of a term.
pub fn term_form(pool: &Pool, term: usize) -> TermForm
    ensures { HasForm pool.now term result }
{
    match pool.node(term) {
        Some(Node::Leaf(head)) => leaf_form(pool, term, head),
        Some(Node::One(head, a)) => one_form(pool, term, head, a),
        Some(Node::Two(head, a, b)) => two_form(pool, term, head, a, b),
        Some(Node::Three(head, a, b, c)) => three_form(pool, term, head, a, b, c),
        None => TermForm::Other,
    }
}

/// Decides whether a term is a numeral.
pub(crate) fn is_numeral(pool: &Pool, term: usize) -> bool
    ensures { result ≡ is_some (numeral_of (term_at pool.now term)) }
{
    match term_form(pool, term) {
        TermForm::Constant(Constant::Num(_)) => true,
        _ => false,
    }
}

/// Decides whether a term is the memory without entries.
pub(crate) fn is_blank(pool: &Pool, term: usize) -> bool
    ensures { result ≡ is_blank (term_at pool.now term) }
{
    match term_form(pool, term) {
        TermForm::Constant(Constant::Blank) => true,
        _ => false,
    }
}

fn divisor_kind(constant: Constant) -> DivisorKind
    ensures { result ≡ divisor_kind constant }
{
    match constant {
        Constant::Num(value) => {
            if value > 0 {
                DivisorKind::IsFromOne
            } else if value == 0 {
                DivisorKind::IsZero
            } else {
                DivisorKind::IsOther
            }
        }
        Constant::Wide(value) => {
            if value > 0 {
                DivisorKind::IsFromOne
            } else {
                DivisorKind::IsOther
            }
        }
        Constant::Max => DivisorKind::IsFromOne,
        _ => DivisorKind::IsOther,
    }
}

/// The kind of a term as a divisor.
pub(crate) fn divisor_at(pool: &Pool, term: usize) -> DivisorKind
    ensures { result ≡ divisor_of (term_at pool.now term) }
{
    match term_form(pool, term) {
        TermForm::Constant(constant) => divisor_kind(constant),
        _ => DivisorKind::IsOther,
    }
}

// ---- types

fn leaf_type(pool: &Pool, of: usize, head: Leaf) -> TypeForm
    requires { IsMade pool.now of (LeafNode head) }
    ensures { HasTypeForm pool.now of result }
{
    match head {
        Leaf::TypeInt(width) => TypeForm::Int(width),
        Leaf::TypeAddress => TypeForm::Address,
        Leaf::TypeSigner => TypeForm::Signer,
        Leaf::TypeNum | Leaf::TypeParam(_) => TypeForm::Other,
        _ => TypeForm::Bool,
    }
}

fn one_type(pool: &Pool, of: usize, head: One, a: usize) -> TypeForm
    requires { IsMade pool.now of (OneNode head a) }
    ensures { HasTypeForm pool.now of result }
{
    match head {
        One::TypeVector => TypeForm::Vector(a),
        One::TypeShared | One::TypeMutable | One::TypeTuple => TypeForm::Other,
        _ => TypeForm::Bool,
    }
}

fn three_type(pool: &Pool, of: usize, head: Three, a: usize, b: usize, c: usize) -> TypeForm
    requires { IsMade pool.now of (ThreeNode head a b c) }
    ensures { HasTypeForm pool.now of result }
{
    match head {
        Three::TypeStruct(_) => TypeForm::Struct,
        _ => TypeForm::Bool,
    }
}

/// The top-level form of a type. A number that is none counts as the type of truth values.
pub(crate) fn type_form(pool: &Pool, of: usize) -> TypeForm
    ensures { HasTypeForm pool.now of result }
{
    match pool.node(of) {
        Some(Node::Leaf(head)) => leaf_type(pool, of, head),
        Some(Node::One(head, a)) => one_type(pool, of, head, a),
        Some(Node::Three(head, a, b, c)) => three_type(pool, of, head, a, b, c),
        Some(Node::Two(_, _, _)) => TypeForm::Bool,
        None => TypeForm::Bool,
    }
}

/// The item type of a vector type. None for another type.
pub fn vector_items(pool: &Pool, of: usize) -> Option<usize>
    ensures { MatchOption result (IsNoVector pool.now of) (IsVector pool.now of) }
{
    match type_form(pool, of) {
        TypeForm::Vector(items) => Some(items),
        _ => None,
    }
}

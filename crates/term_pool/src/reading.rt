//! Builds the trees of terms, formulas and types given by number. A number that is read as a term and is none gives
//! `Nothing`, and each other sort has a default too.

ghost use Rattle.std.specs.Prelude.{◌≡◌, [], IfOk, MatchOption};
ghost use Rattle.base.specs.TypeData.{NoTypes};
ghost use Rattle.base.specs.TypeView.{type_of_node};
ghost use Rattle.fol.specs.FormulaData.{NoTerms, NoTriggers, NoFormulas, AnyOfFormula, terms_of, triggers_of, formulas_of};
ghost use Rattle.fol.specs.FormulaView.{term_of_node, formula_of_node};
ghost use Rattle.term_pool.specs.Items.{term_in, terms_in, triggers_in, formula_in, formulas_in, type_in, types_in, bytes_in, one_item, two_item, three_item, leaf_item};
ghost use Rattle.term_pool.specs.Pools.{item_at};
ghost use Rattle.term_pool.specs.declared.node.Three.TheVariants.{TypeStruct};
ghost use Rattle.term_pool.specs.Lists.{IsFirstTerm, IsFirstTrigger, IsFirstFormula, IsFirstType, IsFirstByte};

use crate::node::{Leaf, Node, One, Three, Two};
use crate::pool::Pool;
use base::memory::NoMemory;
use base::name::Name;
use base::types::{StructId, TypeList, TypeNode, TypeTerm};
use fol::formula::{Formula, FormulaNode, Term, TermNode, Trigger};
use std::alloc::Global;

// ---- lists: the first item and the rest

/// The numbers of the first term of a list and of the rest.
pub fn first_term(pool: &Pool, list: usize) -> Option<(usize, usize)>
    ensures { MatchOption result (terms_in (item_at pool.now list) ≡ NoTerms) (IsFirstTerm pool.now list) }
{
    match pool.node(list) {
        Some(Node::Two(Two::ConsTerm, first, rest)) => Some((first, rest)),
        _ => None,
    }
}

/// The numbers of the first trigger of a list and of the rest.
pub fn first_trigger(pool: &Pool, list: usize) -> Option<(usize, usize)>
    ensures { MatchOption result (triggers_in (item_at pool.now list) ≡ NoTriggers) (IsFirstTrigger pool.now list) }
{
    match pool.node(list) {
        Some(Node::Two(Two::ConsTrigger, first, rest)) => Some((first, rest)),
        _ => None,
    }
}

/// The numbers of the first formula of a list and of the rest.
pub fn first_formula(pool: &Pool, list: usize) -> Option<(usize, usize)>
    ensures { MatchOption result (formulas_in (item_at pool.now list) ≡ NoFormulas) (IsFirstFormula pool.now list) }
{
    match pool.node(list) {
        Some(Node::Two(Two::ConsFormula, first, rest)) => Some((first, rest)),
        _ => None,
    }
}

/// The numbers of the first type of a list and of the rest.
pub fn first_type(pool: &Pool, list: usize) -> Option<(usize, usize)>
    ensures { MatchOption result (types_in (item_at pool.now list) ≡ NoTypes) (IsFirstType pool.now list) }
{
    match pool.node(list) {
        Some(Node::Two(Two::ConsType, first, rest)) => Some((first, rest)),
        _ => None,
    }
}

// The first of a list of bytes, and the number of the rest.
fn first_byte(pool: &Pool, list: usize) -> Option<(u8, usize)>
    ensures { MatchOption result (bytes_in (item_at pool.now list) ≡ []) (IsFirstByte pool.now list) }
{
    match pool.node(list) {
        Some(Node::One(One::ConsByte(byte), rest)) => Some((byte, rest)),
        _ => None,
    }
}

// ---- types

fn type_term(node: TypeNode) -> TypeTerm
    ensures { result ≡ type_of_node node }
{
    TypeTerm { node }
}

fn read_bytes(alloc: Global, pool: &Pool, number: usize) -> Result<Vec<u8>, NoMemory>
    ensures { IfOk result (λ bytes. bytes.items ≡ bytes_in (item_at pool.now number)) }
{
    let mut bytes = Vec::new(alloc);
    let mut list = number;
    while let Some((byte, rest)) = first_byte(pool, list) {
        bytes.push(byte)?;
        list = rest;
    }
    Ok(bytes)
}

fn read_name(alloc: Global, pool: &Pool, number: usize) -> Result<Name, NoMemory>
    ensures { IfOk result (λ name. name ≡ bytes_in (item_at pool.now number)) }
{
    let bytes = read_bytes(alloc, pool, number)?;
    Name::from_slice(alloc, bytes.as_slice())
}

fn leaf_type(head: Leaf) -> TypeTerm
    ensures { result ≡ type_in (leaf_item head) }
{
    match head {
        Leaf::TypeInt(width) => type_term(TypeNode::Int(width)),
        Leaf::TypeNum => type_term(TypeNode::Num),
        Leaf::TypeAddress => type_term(TypeNode::Address),
        Leaf::TypeSigner => type_term(TypeNode::Signer),
        Leaf::TypeParam(n) => type_term(TypeNode::Param(n)),
        _ => type_term(TypeNode::Bool),
    }
}

#[cycle(read_type)]
fn read_boxed_type(alloc: Global, pool: &Pool, number: usize) -> Result<Box<TypeTerm>, NoMemory>
    ensures { IfOk result (λ of. of.value ≡ type_in (item_at pool.now number)) }
{
    Ok(Box::new(alloc, read_type(alloc, pool, number)?)?)
}

#[cycle(read_type)]
fn read_one_type(alloc: Global, pool: &Pool, head: One, a: usize) -> Result<TypeTerm, NoMemory>
    ensures { IfOk result (λ of. of ≡ type_in (one_item head (item_at pool.now a))) }
{
    match head {
        One::TypeVector => {
            let a = read_boxed_type(alloc, pool, a)?;
            Ok(type_term(TypeNode::Vector(a)))
        }
        One::TypeShared => {
            let a = read_boxed_type(alloc, pool, a)?;
            Ok(type_term(TypeNode::Shared(a)))
        }
        One::TypeMutable => {
            let a = read_boxed_type(alloc, pool, a)?;
            Ok(type_term(TypeNode::Mutable(a)))
        }
        One::TypeTuple => {
            let ts = read_types(alloc, pool, a)?;
            Ok(type_term(TypeNode::Tuple(ts)))
        }
        _ => Ok(type_term(TypeNode::Bool)),
    }
}

#[cycle(read_type)]
fn read_three_type(
    alloc: Global,
    pool: &Pool,
    head: Three,
    a: usize,
    b: usize,
    c: usize,
) -> Result<TypeTerm, NoMemory>
    ensures { IfOk result (λ of. of ≡ type_in (three_item head (item_at pool.now a) (item_at pool.now b) (item_at pool.now c))) }
{
    match head {
        Three::TypeStruct(address) => read_struct(alloc, pool, address, a, b, c),
        _ => Ok(type_term(TypeNode::Bool)),
    }
}

#[cycle(read_type)]
fn read_struct(
    alloc: Global,
    pool: &Pool,
    address: u128,
    owner: usize,
    own: usize,
    ts: usize,
) -> Result<TypeTerm, NoMemory>
    ensures { IfOk result (λ of. of ≡ type_in (three_item (TypeStruct address) (item_at pool.now owner) (item_at pool.now own) (item_at pool.now ts))) }
{
    let module = read_name(alloc, pool, owner)?;
    let name = read_name(alloc, pool, own)?;
    let ts = read_types(alloc, pool, ts)?;
    let id = StructId {
        address,
        module,
        name,
    };
    Ok(type_term(TypeNode::Struct(id, ts)))
}

#[cycle(read_type)]
fn read_types(alloc: Global, pool: &Pool, number: usize) -> Result<TypeList, NoMemory>
    ensures { IfOk result (λ types. types ≡ types_in (item_at pool.now number)) }
{
    let mut items = Vec::new(alloc);
    let mut list = number;
    while let Some((first, rest)) = first_type(pool, list) {
        items.push(read_type(alloc, pool, first)?)?;
        list = rest;
    }
    Ok(TypeList { items })
}

/// Returns the type with this number. The recursion is as deep as the type.
#[cycle(read_type)]
pub fn read_type(alloc: Global, pool: &Pool, number: usize) -> Result<TypeTerm, NoMemory>
    ensures { IfOk result (λ of. of ≡ type_in (item_at pool.now number)) }
{
    match pool.node(number) {
        Some(Node::Leaf(head)) => Ok(leaf_type(head)),
        Some(Node::One(head, a)) => read_one_type(alloc, pool, head, a),
        Some(Node::Two(_, _, _)) => Ok(type_term(TypeNode::Bool)),
        Some(Node::Three(head, a, b, c)) => read_three_type(alloc, pool, head, a, b, c),
        None => Ok(type_term(TypeNode::Bool)),
    }
}

// ---- terms and formulas

fn term(node: TermNode) -> Term
    ensures { result ≡ term_of_node node }
{
    Term { node }
}

fn formula(node: FormulaNode) -> Formula
    ensures { result ≡ formula_of_node node }
{
    Formula { node }
}

// The default formula: the result for a number that is no formula.
fn no_formula(alloc: Global) -> Formula
    ensures { result ≡ AnyOfFormula NoFormulas }
{
    Formula::any_of(Vec::new(alloc))
}

fn leaf_term(head: Leaf) -> Term
    ensures { result ≡ term_in (leaf_item head) }
{
    match head {
        Leaf::Var(n) => Term::variable(n),
        Leaf::Constant(constant) => term(TermNode::Constant(constant)),
        _ => Term::nothing(),
    }
}

#[cycle(read_term)]
fn read_boxed_term(alloc: Global, pool: &Pool, number: usize) -> Result<Box<Term>, NoMemory>
    ensures { IfOk result (λ term. term.value ≡ term_in (item_at pool.now number)) }
{
    Ok(Box::new(alloc, read_term(alloc, pool, number)?)?)
}

#[cycle(read_term)]
fn read_boxed_formula(alloc: Global, pool: &Pool, number: usize) -> Result<Box<Formula>, NoMemory>
    ensures { IfOk result (λ formula. formula.value ≡ formula_in (item_at pool.now number)) }
{
    Ok(Box::new(alloc, read_formula(alloc, pool, number)?)?)
}

#[cycle(read_term)]
fn read_one_term(alloc: Global, pool: &Pool, head: One, a: usize) -> Result<Term, NoMemory>
    ensures { IfOk result (λ term. term ≡ term_in (one_item head (item_at pool.now a))) }
{
    match head {
        One::Unary(operator) => {
            let a = read_boxed_term(alloc, pool, a)?;
            Ok(term(TermNode::Unary(operator, a)))
        }
        _ => Ok(Term::nothing()),
    }
}

#[cycle(read_term)]
fn read_two_term(
    alloc: Global,
    pool: &Pool,
    head: Two,
    a: usize,
    b: usize,
) -> Result<Term, NoMemory>
    ensures { IfOk result (λ term. term ≡ term_in (two_item head (item_at pool.now a) (item_at pool.now b))) }
{
    match head {
        Two::Binary(operator) => {
            let a = read_boxed_term(alloc, pool, a)?;
            let b = read_boxed_term(alloc, pool, b)?;
            Ok(term(TermNode::Binary(operator, a, b)))
        }
        Two::Pack => {
            let of = read_type(alloc, pool, a)?;
            let ts = read_terms(alloc, pool, b)?;
            Ok(term(TermNode::Pack(of, ts)))
        }
        Two::Field(k) => {
            let of = read_type(alloc, pool, a)?;
            let b = read_boxed_term(alloc, pool, b)?;
            Ok(term(TermNode::Field(of, k, b)))
        }
        _ => Ok(Term::nothing()),
    }
}

#[cycle(read_term)]
fn read_three_term(
    alloc: Global,
    pool: &Pool,
    head: Three,
    a: usize,
    b: usize,
    c: usize,
) -> Result<Term, NoMemory>
    ensures { IfOk result (λ term. term ≡ term_in (three_item head (item_at pool.now a) (item_at pool.now b) (item_at pool.now c))) }
{
    match head {
        Three::Ternary(operator) => {
            let a = read_boxed_term(alloc, pool, a)?;
            let b = read_boxed_term(alloc, pool, b)?;
            let c = read_boxed_term(alloc, pool, c)?;
            Ok(term(TermNode::Ternary(operator, a, b, c)))
        }
        Three::SetField(k) => {
            let of = read_type(alloc, pool, a)?;
            let b = read_boxed_term(alloc, pool, b)?;
            let c = read_boxed_term(alloc, pool, c)?;
            Ok(term(TermNode::SetField(of, k, b, c)))
        }
        Three::If => {
            let p = read_boxed_formula(alloc, pool, a)?;
            let b = read_boxed_term(alloc, pool, b)?;
            let c = read_boxed_term(alloc, pool, c)?;
            Ok(term(TermNode::If(p, b, c)))
        }
        _ => Ok(Term::nothing()),
    }
}

#[cycle(read_term)]
fn read_terms(alloc: Global, pool: &Pool, number: usize) -> Result<Vec<Term>, NoMemory>
    ensures { IfOk result (λ terms. terms_of terms.items ≡ terms_in (item_at pool.now number)) }
{
    let mut items = Vec::new(alloc);
    let mut list = number;
    while let Some((first, rest)) = first_term(pool, list) {
        items.push(read_term(alloc, pool, first)?)?;
        list = rest;
    }
    Ok(items)
}

/// Returns the term with this number. The recursion is as deep as the term.
#[cycle(read_term)]
pub fn read_term(alloc: Global, pool: &Pool, number: usize) -> Result<Term, NoMemory>
    ensures { IfOk result (λ term. term ≡ term_in (item_at pool.now number)) }
{
    match pool.node(number) {
        Some(Node::Leaf(head)) => Ok(leaf_term(head)),
        Some(Node::One(head, a)) => read_one_term(alloc, pool, head, a),
        Some(Node::Two(head, a, b)) => read_two_term(alloc, pool, head, a, b),
        Some(Node::Three(head, a, b, c)) => read_three_term(alloc, pool, head, a, b, c),
        None => Ok(Term::nothing()),
    }
}

#[cycle(read_term)]
fn read_trigger(alloc: Global, pool: &Pool, number: usize) -> Result<Trigger, NoMemory>
    ensures { IfOk result (λ trigger. trigger ≡ terms_in (item_at pool.now number)) }
{
    let terms = read_terms(alloc, pool, number)?;
    Ok(Trigger { terms })
}

#[cycle(read_term)]
fn read_triggers(alloc: Global, pool: &Pool, number: usize) -> Result<Vec<Trigger>, NoMemory>
    ensures { IfOk result (λ triggers. triggers_of triggers.items ≡ triggers_in (item_at pool.now number)) }
{
    let mut items = Vec::new(alloc);
    let mut list = number;
    while let Some((first, rest)) = first_trigger(pool, list) {
        items.push(read_trigger(alloc, pool, first)?)?;
        list = rest;
    }
    Ok(items)
}

#[cycle(read_term)]
fn read_one_formula(alloc: Global, pool: &Pool, head: One, a: usize) -> Result<Formula, NoMemory>
    ensures { IfOk result (λ formula. formula ≡ formula_in (one_item head (item_at pool.now a))) }
{
    match head {
        One::Holds => {
            let a = read_boxed_term(alloc, pool, a)?;
            Ok(formula(FormulaNode::Holds(a)))
        }
        One::Not => {
            let p = read_boxed_formula(alloc, pool, a)?;
            Ok(formula(FormulaNode::Not(p)))
        }
        One::Join(operator) => {
            let ps = read_formulas(alloc, pool, a)?;
            Ok(formula(FormulaNode::Join(operator, ps)))
        }
        _ => Ok(no_formula(alloc)),
    }
}

#[cycle(read_term)]
fn read_two_formula(
    alloc: Global,
    pool: &Pool,
    head: Two,
    a: usize,
    b: usize,
) -> Result<Formula, NoMemory>
    ensures { IfOk result (λ formula. formula ≡ formula_in (two_item head (item_at pool.now a) (item_at pool.now b))) }
{
    match head {
        Two::Compare(operator) => {
            let a = read_boxed_term(alloc, pool, a)?;
            let b = read_boxed_term(alloc, pool, b)?;
            Ok(formula(FormulaNode::Compare(operator, a, b)))
        }
        Two::Is => {
            let of = read_type(alloc, pool, a)?;
            let b = read_boxed_term(alloc, pool, b)?;
            Ok(formula(FormulaNode::Is(of, b)))
        }
        Two::Connect(operator) => {
            let p = read_boxed_formula(alloc, pool, a)?;
            let q = read_boxed_formula(alloc, pool, b)?;
            Ok(formula(FormulaNode::Connect(operator, p, q)))
        }
        Two::Quantify(operator, n) => {
            let triggers = read_triggers(alloc, pool, a)?;
            let p = read_boxed_formula(alloc, pool, b)?;
            Ok(formula(FormulaNode::Quantify(operator, n, triggers, p)))
        }
        _ => Ok(no_formula(alloc)),
    }
}

#[cycle(read_term)]
fn read_formulas(alloc: Global, pool: &Pool, number: usize) -> Result<Vec<Formula>, NoMemory>
    ensures { IfOk result (λ formulas. formulas_of formulas.items ≡ formulas_in (item_at pool.now number)) }
{
    let mut items = Vec::new(alloc);
    let mut list = number;
    while let Some((first, rest)) = first_formula(pool, list) {
        items.push(read_formula(alloc, pool, first)?)?;
        list = rest;
    }
    Ok(items)
}

/// Returns the formula with this number. The recursion is as deep as the formula.
#[cycle(read_term)]
pub fn read_formula(alloc: Global, pool: &Pool, number: usize) -> Result<Formula, NoMemory>
    ensures { IfOk result (λ formula. formula ≡ formula_in (item_at pool.now number)) }
{
    match pool.node(number) {
        Some(Node::Leaf(_)) => Ok(no_formula(alloc)),
        Some(Node::One(head, a)) => read_one_formula(alloc, pool, head, a),
        Some(Node::Two(head, a, b)) => read_two_formula(alloc, pool, head, a, b),
        Some(Node::Three(_, _, _, _)) => Ok(no_formula(alloc)),
        None => Ok(no_formula(alloc)),
    }
}

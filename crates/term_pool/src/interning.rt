//! Interning: finds or adds the number of a term, formula or type given as a tree.

ghost use Rattle.std.specs.Prelude.{◌≡◌, ◌<◌, length, IfOk};
ghost use Rattle.base.specs.TypeData.{TupleType, StructType, types_of};
ghost use Rattle.fol.specs.FormulaData.{TernaryTerm, PackTerm, SetFieldTerm, IfTerm, JoinFormula, QuantifyFormula, terms_of, triggers_of, formulas_of};
ghost use Rattle.term_pool.specs.Items.{TermItem, TermsItem, TriggersItem, FormulaItem, FormulasItem, TypeItem, TypesItem, BytesItem, leaf_item, one_item, two_item, three_item, one_part, first_of_two, second_of_two, TermSort, FormulaSort, TypeSort};
ghost use Rattle.term_pool.specs.Pools.{item_at, HasParts, IsItem, Extends};
ghost use Rattle.term_pool.specs.declared.node.Node.TheVariants.{Leaf as LeafNode, One as OneNode, Two as TwoNode, Three as ThreeNode};

use crate::node::{Leaf, Node, One, Three, Two};
use crate::pool::Pool;
use base::memory::NoMemory;
use base::name::Name;
use base::types::{StructId, TypeNode, TypeTerm};
use fol::formula::{Formula, FormulaNode, Term, TermNode, Trigger};
use fol::operators::{Junction, Quantifier, Ternary};

// ---- by arity

fn leaf(pool: &mut Pool, head: Leaf) -> Result<usize, NoMemory>
    ensures extends { Extends pool.old pool.new }
    ensures is { IfOk result (λ number. IsItem pool.new number (leaf_item head)) }
{
    pool.insert(Node::Leaf(head))
}

fn one(pool: &mut Pool, head: One, a: usize) -> Result<usize, NoMemory>
    requires { HasParts pool.old (length pool.old) (OneNode head a) }
    ensures extends { Extends pool.old pool.new }
    ensures is { IfOk result (λ number. IsItem pool.new number (one_item head (item_at pool.old a))) }
{
    pool.insert(Node::One(head, a))
}

fn two(pool: &mut Pool, head: Two, a: usize, b: usize) -> Result<usize, NoMemory>
    requires { HasParts pool.old (length pool.old) (TwoNode head a b) }
    ensures extends { Extends pool.old pool.new }
    ensures is { IfOk result (λ number. IsItem pool.new number (two_item head (item_at pool.old a) (item_at pool.old b))) }
{
    pool.insert(Node::Two(head, a, b))
}

fn three(pool: &mut Pool, head: Three, a: usize, b: usize, c: usize) -> Result<usize, NoMemory>
    requires { HasParts pool.old (length pool.old) (ThreeNode head a b c) }
    ensures extends { Extends pool.old pool.new }
    ensures is { IfOk result (λ number. IsItem pool.new number (three_item head (item_at pool.old a) (item_at pool.old b) (item_at pool.old c))) }
{
    pool.insert(Node::Three(head, a, b, c))
}

// ---- types

#[tactic(auto, using(crate::proofs::GrowthLemmas::extends_then))]
fn intern_bytes(pool: &mut Pool, bytes: &[u8]) -> Result<usize, NoMemory>
    ensures extends { Extends pool.old pool.new }
    ensures is { IfOk result (λ number. IsItem pool.new number (BytesItem bytes.now)) }
{
    let mut list = leaf(pool, Leaf::NilBytes)?;
    let mut rest = bytes.len();
    while rest > 0 {
        rest -= 1;
        list = one(pool, One::ConsByte(bytes[rest]), list)?;
    }
    Ok(list)
}

fn intern_name(pool: &mut Pool, name: &Name) -> Result<usize, NoMemory>
    ensures extends { Extends pool.old pool.new }
    ensures is { IfOk result (λ number. IsItem pool.new number (BytesItem name.now)) }
{
    intern_bytes(pool, name.as_slice())
}

#[cycle(types)]
#[tactic(auto, using(crate::proofs::GrowthLemmas::extends_then))]
fn intern_type_part(pool: &mut Pool, head: One, a: &TypeTerm) -> Result<usize, NoMemory>
    requires { one_part head ≡ TypeSort }
    ensures extends { Extends pool.old pool.new }
    ensures is { IfOk result (λ number. IsItem pool.new number (one_item head (TypeItem a.now))) }
{
    let a = intern_type(pool, a)?;
    one(pool, head, a)
}

#[cycle(types)]
#[tactic(auto, using(crate::proofs::GrowthLemmas::extends_then))]
fn intern_struct(pool: &mut Pool, id: &StructId, ts: &[TypeTerm]) -> Result<usize, NoMemory>
    ensures extends { Extends pool.old pool.new }
    ensures is { IfOk result (λ number. IsItem pool.new number (TypeItem (StructType id.now (types_of ts.now)))) }
{
    let module = intern_name(pool, &id.module)?;
    let name = intern_name(pool, &id.name)?;
    let ts = intern_types(pool, ts)?;
    three(pool, Three::TypeStruct(id.address), module, name, ts)
}

#[cycle(types)]
#[tactic(auto, using(crate::proofs::GrowthLemmas::extends_then))]
fn intern_tuple(pool: &mut Pool, ts: &[TypeTerm]) -> Result<usize, NoMemory>
    ensures extends { Extends pool.old pool.new }
    ensures is { IfOk result (λ number. IsItem pool.new number (TypeItem (TupleType (types_of ts.now)))) }
{
    let ts = intern_types(pool, ts)?;
    one(pool, One::TypeTuple, ts)
}

/// Interns a list of types and returns its number.
#[cycle(types)]
#[tactic(auto, using(crate::proofs::GrowthLemmas::extends_then, fol::proofs::Smaller::type_smaller))]
pub fn intern_types(pool: &mut Pool, types: &[TypeTerm]) -> Result<usize, NoMemory>
    ensures extends { Extends pool.old pool.new }
    ensures is { IfOk result (λ number. IsItem pool.new number (TypesItem (types_of types.now))) }
{
    let mut list = leaf(pool, Leaf::NilTypes)?;
    let mut rest = types.len();
    while rest > 0 {
        rest -= 1;
        let first = intern_type(pool, &types[rest])?;
        list = two(pool, Two::ConsType, first, list)?;
    }
    Ok(list)
}

/// Interns a type and returns its number. The recursion is as deep as the type.
#[cycle(types)]
pub fn intern_type(pool: &mut Pool, of: &TypeTerm) -> Result<usize, NoMemory>
    ensures extends { Extends pool.old pool.new }
    ensures is { IfOk result (λ number. IsItem pool.new number (TypeItem of.now)) }
{
    match &of.node {
        TypeNode::Bool => leaf(pool, Leaf::TypeBool),
        TypeNode::Int(width) => leaf(pool, Leaf::TypeInt(*width)),
        TypeNode::Num => leaf(pool, Leaf::TypeNum),
        TypeNode::Address => leaf(pool, Leaf::TypeAddress),
        TypeNode::Signer => leaf(pool, Leaf::TypeSigner),
        TypeNode::Vector(a) => intern_type_part(pool, One::TypeVector, a),
        TypeNode::Struct(id, ts) => intern_struct(pool, id, ts.items.as_slice()),
        TypeNode::Param(n) => leaf(pool, Leaf::TypeParam(*n)),
        TypeNode::Shared(a) => intern_type_part(pool, One::TypeShared, a),
        TypeNode::Mutable(a) => intern_type_part(pool, One::TypeMutable, a),
        TypeNode::Tuple(ts) => intern_tuple(pool, ts.items.as_slice()),
    }
}

// ---- terms and formulas

#[cycle(terms)]
#[tactic(auto, using(crate::proofs::GrowthLemmas::extends_then))]
fn intern_term_part(pool: &mut Pool, head: One, a: &Term) -> Result<usize, NoMemory>
    requires { one_part head ≡ TermSort }
    ensures extends { Extends pool.old pool.new }
    ensures is { IfOk result (λ number. IsItem pool.new number (one_item head (TermItem a.now))) }
{
    let a = intern_term(pool, a)?;
    one(pool, head, a)
}

#[cycle(terms)]
#[tactic(auto, using(crate::proofs::GrowthLemmas::extends_then))]
fn intern_formula_part(pool: &mut Pool, head: One, p: &Formula) -> Result<usize, NoMemory>
    requires { one_part head ≡ FormulaSort }
    ensures extends { Extends pool.old pool.new }
    ensures is { IfOk result (λ number. IsItem pool.new number (one_item head (FormulaItem p.now))) }
{
    let p = intern_formula(pool, p)?;
    one(pool, head, p)
}

#[cycle(terms)]
#[tactic(auto, using(crate::proofs::GrowthLemmas::extends_then))]
fn intern_two_terms(pool: &mut Pool, head: Two, a: &Term, b: &Term) -> Result<usize, NoMemory>
    requires first { first_of_two head ≡ TermSort }
    requires second { second_of_two head ≡ TermSort }
    ensures extends { Extends pool.old pool.new }
    ensures is { IfOk result (λ number. IsItem pool.new number (two_item head (TermItem a.now) (TermItem b.now))) }
{
    let a = intern_term(pool, a)?;
    let b = intern_term(pool, b)?;
    two(pool, head, a, b)
}

#[cycle(terms)]
#[tactic(auto, using(crate::proofs::GrowthLemmas::extends_then))]
fn intern_two_formulas(
    pool: &mut Pool,
    head: Two,
    p: &Formula,
    q: &Formula,
) -> Result<usize, NoMemory>
    requires first { first_of_two head ≡ FormulaSort }
    requires second { second_of_two head ≡ FormulaSort }
    ensures extends { Extends pool.old pool.new }
    ensures is { IfOk result (λ number. IsItem pool.new number (two_item head (FormulaItem p.now) (FormulaItem q.now))) }
{
    let p = intern_formula(pool, p)?;
    let q = intern_formula(pool, q)?;
    two(pool, head, p, q)
}

#[cycle(terms)]
#[tactic(auto, using(crate::proofs::GrowthLemmas::extends_then))]
fn intern_typed(pool: &mut Pool, head: Two, of: &TypeTerm, a: &Term) -> Result<usize, NoMemory>
    requires first { first_of_two head ≡ TypeSort }
    requires second { second_of_two head ≡ TermSort }
    ensures extends { Extends pool.old pool.new }
    ensures is { IfOk result (λ number. IsItem pool.new number (two_item head (TypeItem of.now) (TermItem a.now))) }
{
    let of = intern_type(pool, of)?;
    let a = intern_term(pool, a)?;
    two(pool, head, of, a)
}

#[cycle(terms)]
#[tactic(auto, using(crate::proofs::GrowthLemmas::extends_then))]
fn intern_ternary(
    pool: &mut Pool,
    operator: Ternary,
    a: &Term,
    b: &Term,
    c: &Term,
) -> Result<usize, NoMemory>
    ensures extends { Extends pool.old pool.new }
    ensures is { IfOk result (λ number. IsItem pool.new number (TermItem (TernaryTerm operator a.now b.now c.now))) }
{
    let a = intern_term(pool, a)?;
    let b = intern_term(pool, b)?;
    let c = intern_term(pool, c)?;
    three(pool, Three::Ternary(operator), a, b, c)
}

#[cycle(terms)]
#[tactic(auto, using(crate::proofs::GrowthLemmas::extends_then))]
fn intern_pack(pool: &mut Pool, of: &TypeTerm, ts: &[Term]) -> Result<usize, NoMemory>
    ensures extends { Extends pool.old pool.new }
    ensures is { IfOk result (λ number. IsItem pool.new number (TermItem (PackTerm of.now (terms_of ts.now)))) }
{
    let of = intern_type(pool, of)?;
    let ts = intern_terms(pool, ts)?;
    two(pool, Two::Pack, of, ts)
}

#[cycle(terms)]
#[tactic(auto, using(crate::proofs::GrowthLemmas::extends_then))]
fn intern_set_field(
    pool: &mut Pool,
    of: &TypeTerm,
    k: u32,
    a: &Term,
    b: &Term,
) -> Result<usize, NoMemory>
    ensures extends { Extends pool.old pool.new }
    ensures is { IfOk result (λ number. IsItem pool.new number (TermItem (SetFieldTerm of.now k a.now b.now))) }
{
    let of = intern_type(pool, of)?;
    let a = intern_term(pool, a)?;
    let b = intern_term(pool, b)?;
    three(pool, Three::SetField(k), of, a, b)
}

#[cycle(terms)]
#[tactic(auto, using(crate::proofs::GrowthLemmas::extends_then))]
fn intern_if(pool: &mut Pool, p: &Formula, a: &Term, b: &Term) -> Result<usize, NoMemory>
    ensures extends { Extends pool.old pool.new }
    ensures is { IfOk result (λ number. IsItem pool.new number (TermItem (IfTerm p.now a.now b.now))) }
{
    let p = intern_formula(pool, p)?;
    let a = intern_term(pool, a)?;
    let b = intern_term(pool, b)?;
    three(pool, Three::If, p, a, b)
}

#[cycle(terms)]
#[tactic(auto, using(crate::proofs::GrowthLemmas::extends_then, fol::proofs::Smaller::term_smaller))]
fn intern_terms(pool: &mut Pool, terms: &[Term]) -> Result<usize, NoMemory>
    ensures extends { Extends pool.old pool.new }
    ensures is { IfOk result (λ number. IsItem pool.new number (TermsItem (terms_of terms.now))) }
{
    let mut list = leaf(pool, Leaf::NilTerms)?;
    let mut rest = terms.len();
    while rest > 0 {
        rest -= 1;
        let first = intern_term(pool, &terms[rest])?;
        list = two(pool, Two::ConsTerm, first, list)?;
    }
    Ok(list)
}

/// Interns a term and returns its number. The recursion is as deep as the term.
#[cycle(terms)]
pub fn intern_term(pool: &mut Pool, term: &Term) -> Result<usize, NoMemory>
    ensures extends { Extends pool.old pool.new }
    ensures is { IfOk result (λ number. IsItem pool.new number (TermItem term.now)) }
{
    match &term.node {
        TermNode::Var(n) => leaf(pool, Leaf::Var(*n)),
        TermNode::Constant(constant) => leaf(pool, Leaf::Constant(*constant)),
        TermNode::Unary(operator, a) => intern_term_part(pool, One::Unary(*operator), a),
        TermNode::Binary(operator, a, b) => intern_two_terms(pool, Two::Binary(*operator), a, b),
        TermNode::Ternary(operator, a, b, c) => intern_ternary(pool, *operator, a, b, c),
        TermNode::Pack(of, ts) => intern_pack(pool, of, ts.as_slice()),
        TermNode::Field(of, k, a) => intern_typed(pool, Two::Field(*k), of, a),
        TermNode::SetField(of, k, a, b) => intern_set_field(pool, of, *k, a, b),
        TermNode::If(p, a, b) => intern_if(pool, p, a, b),
    }
}

#[cycle(terms)]
#[tactic(auto, using(crate::proofs::GrowthLemmas::extends_then))]
fn intern_trigger(pool: &mut Pool, trigger: &Trigger) -> Result<usize, NoMemory>
    ensures extends { Extends pool.old pool.new }
    ensures is { IfOk result (λ number. IsItem pool.new number (TermsItem trigger.now)) }
{
    intern_terms(pool, trigger.terms.as_slice())
}

#[cycle(terms)]
#[tactic(auto, using(crate::proofs::GrowthLemmas::extends_then, fol::proofs::Smaller::trigger_smaller))]
fn intern_triggers(pool: &mut Pool, triggers: &[Trigger]) -> Result<usize, NoMemory>
    ensures extends { Extends pool.old pool.new }
    ensures is { IfOk result (λ number. IsItem pool.new number (TriggersItem (triggers_of triggers.now))) }
{
    let mut list = leaf(pool, Leaf::NilTriggers)?;
    let mut rest = triggers.len();
    while rest > 0 {
        rest -= 1;
        let first = intern_trigger(pool, &triggers[rest])?;
        list = two(pool, Two::ConsTrigger, first, list)?;
    }
    Ok(list)
}

#[cycle(terms)]
#[tactic(auto, using(crate::proofs::GrowthLemmas::extends_then))]
fn intern_join(pool: &mut Pool, operator: Junction, ps: &[Formula]) -> Result<usize, NoMemory>
    ensures extends { Extends pool.old pool.new }
    ensures is { IfOk result (λ number. IsItem pool.new number (FormulaItem (JoinFormula operator (formulas_of ps.now)))) }
{
    let ps = intern_formulas(pool, ps)?;
    one(pool, One::Join(operator), ps)
}

#[cycle(terms)]
#[tactic(auto, using(crate::proofs::GrowthLemmas::extends_then))]
fn intern_quantify(
    pool: &mut Pool,
    operator: Quantifier,
    n: u32,
    triggers: &[Trigger],
    p: &Formula,
) -> Result<usize, NoMemory>
    ensures extends { Extends pool.old pool.new }
    ensures is { IfOk result (λ number. IsItem pool.new number (FormulaItem (QuantifyFormula operator n (triggers_of triggers.now) p.now))) }
{
    let triggers = intern_triggers(pool, triggers)?;
    let p = intern_formula(pool, p)?;
    two(pool, Two::Quantify(operator, n), triggers, p)
}

#[cycle(terms)]
#[tactic(auto, using(crate::proofs::GrowthLemmas::extends_then, fol::proofs::Smaller::formula_smaller))]
fn intern_formulas(pool: &mut Pool, formulas: &[Formula]) -> Result<usize, NoMemory>
    ensures extends { Extends pool.old pool.new }
    ensures is { IfOk result (λ number. IsItem pool.new number (FormulasItem (formulas_of formulas.now))) }
{
    let mut list = leaf(pool, Leaf::NilFormulas)?;
    let mut rest = formulas.len();
    while rest > 0 {
        rest -= 1;
        let first = intern_formula(pool, &formulas[rest])?;
        list = two(pool, Two::ConsFormula, first, list)?;
    }
    Ok(list)
}

/// Interns a formula and returns its number. The recursion is as deep as the formula.
#[cycle(terms)]
pub fn intern_formula(pool: &mut Pool, formula: &Formula) -> Result<usize, NoMemory>
    ensures extends { Extends pool.old pool.new }
    ensures is { IfOk result (λ number. IsItem pool.new number (FormulaItem formula.now)) }
{
    match &formula.node {
        FormulaNode::Compare(operator, a, b) => {
            intern_two_terms(pool, Two::Compare(*operator), a, b)
        }
        FormulaNode::Is(of, a) => intern_typed(pool, Two::Is, of, a),
        FormulaNode::Holds(a) => intern_term_part(pool, One::Holds, a),
        FormulaNode::Not(p) => intern_formula_part(pool, One::Not, p),
        FormulaNode::Join(operator, ps) => intern_join(pool, *operator, ps.as_slice()),
        FormulaNode::Connect(operator, p, q) => {
            intern_two_formulas(pool, Two::Connect(*operator), p, q)
        }
        FormulaNode::Quantify(operator, n, triggers, p) => {
            intern_quantify(pool, *operator, *n, triggers.as_slice(), p)
        }
    }
}

//! Copies of terms and formulas.

ghost use Rattle.std.specs.Prelude.{◌≡◌, IfOk};
ghost use Rattle.fol.specs.FormulaData.{UnaryTerm, BinaryTerm, TernaryTerm, PackTerm, FieldTerm, SetFieldTerm, IfTerm, CompareFormula, IsFormula, HoldsFormula, NotFormula, JoinFormula, ConnectFormula, QuantifyFormula, terms_of, triggers_of, formulas_of};
ghost use Rattle.fol.specs.FormulaView.{term_of_node, formula_of_node};

use crate::formula::{Formula, FormulaNode, Term, TermNode, Trigger};
use crate::operators::{Binary, Comparison, Connective, Junction, Quantifier, Ternary, Unary};
use base::memory::NoMemory;
use base::same::copy_type;
use base::types::TypeTerm;
use std::alloc::Global;

fn term(node: TermNode) -> Term
    ensures { result ≡ term_of_node node }
{
    Term { node }
}

fn formula(node: FormulaNode) -> Formula
    ensures { result ≡ formula_of_node node }
{
    Formula { node }
}

impl Term {
    /// Returns a copy of the term.
    // Each form with children is copied by a function of its own, which keeps the proof of this one short.
    #[cycle(copy)]
    pub fn try_clone(&self, alloc: Global) -> Result<Term, NoMemory>
        ensures { IfOk result (λ copy. copy ≡ self.now) }
    {
        match &self.node {
            TermNode::Var(n) => Ok(term(TermNode::Var(*n))),
            TermNode::Constant(constant) => Ok(term(TermNode::Constant(*constant))),
            TermNode::Unary(operator, a) => copy_unary(alloc, *operator, a),
            TermNode::Binary(operator, a, b) => copy_binary(alloc, *operator, a, b),
            TermNode::Ternary(operator, a, b, c) => copy_ternary(alloc, *operator, a, b, c),
            TermNode::Pack(of, ts) => copy_pack(alloc, of, ts.as_slice()),
            TermNode::Field(of, k, a) => copy_field(alloc, of, *k, a),
            TermNode::SetField(of, k, a, b) => copy_set_field(alloc, of, *k, a, b),
            TermNode::If(p, a, b) => copy_if(alloc, p, a, b),
        }
    }
}

#[cycle(copy)]
fn copy_unary(alloc: Global, operator: Unary, a: &Term) -> Result<Term, NoMemory>
    ensures { IfOk result (λ copy. copy ≡ UnaryTerm operator a.now) }
{
    let a = copy_term(alloc, a)?;
    Ok(term(TermNode::Unary(operator, a)))
}

#[cycle(copy)]
fn copy_binary(alloc: Global, operator: Binary, a: &Term, b: &Term) -> Result<Term, NoMemory>
    ensures { IfOk result (λ copy. copy ≡ BinaryTerm operator a.now b.now) }
{
    let a = copy_term(alloc, a)?;
    let b = copy_term(alloc, b)?;
    Ok(term(TermNode::Binary(operator, a, b)))
}

#[cycle(copy)]
fn copy_ternary(
    alloc: Global,
    operator: Ternary,
    a: &Term,
    b: &Term,
    c: &Term,
) -> Result<Term, NoMemory>
    ensures { IfOk result (λ copy. copy ≡ TernaryTerm operator a.now b.now c.now) }
{
    let a = copy_term(alloc, a)?;
    let b = copy_term(alloc, b)?;
    let c = copy_term(alloc, c)?;
    Ok(term(TermNode::Ternary(operator, a, b, c)))
}

#[cycle(copy)]
fn copy_pack(alloc: Global, of: &TypeTerm, ts: &[Term]) -> Result<Term, NoMemory>
    ensures { IfOk result (λ copy. copy ≡ PackTerm of.now (terms_of ts.now)) }
{
    let of = copy_type(alloc, of)?;
    let ts = copy_terms(alloc, ts)?;
    Ok(term(TermNode::Pack(of, ts)))
}

#[cycle(copy)]
fn copy_field(alloc: Global, of: &TypeTerm, k: u32, a: &Term) -> Result<Term, NoMemory>
    ensures { IfOk result (λ copy. copy ≡ FieldTerm of.now k a.now) }
{
    let of = copy_type(alloc, of)?;
    let a = copy_term(alloc, a)?;
    Ok(term(TermNode::Field(of, k, a)))
}

#[cycle(copy)]
fn copy_set_field(
    alloc: Global,
    of: &TypeTerm,
    k: u32,
    a: &Term,
    b: &Term,
) -> Result<Term, NoMemory>
    ensures { IfOk result (λ copy. copy ≡ SetFieldTerm of.now k a.now b.now) }
{
    let of = copy_type(alloc, of)?;
    let a = copy_term(alloc, a)?;
    let b = copy_term(alloc, b)?;
    Ok(term(TermNode::SetField(of, k, a, b)))
}

#[cycle(copy)]
fn copy_if(alloc: Global, p: &Formula, a: &Term, b: &Term) -> Result<Term, NoMemory>
    ensures { IfOk result (λ copy. copy ≡ IfTerm p.now a.now b.now) }
{
    let p = copy_formula(alloc, p)?;
    let a = copy_term(alloc, a)?;
    let b = copy_term(alloc, b)?;
    Ok(term(TermNode::If(p, a, b)))
}

/// Returns a copy of the term, in a box.
#[cycle(copy)]
pub fn copy_term(alloc: Global, from: &Term) -> Result<Box<Term>, NoMemory>
    ensures { IfOk result (λ copy. copy.value ≡ from.now) }
{
    Ok(Box::new(alloc, from.try_clone(alloc)?)?)
}

#[cycle(copy)]
#[tactic(auto, using(crate::proofs::Smaller::term_smaller))]
fn copy_terms(alloc: Global, from: &[Term]) -> Result<Vec<Term>, NoMemory>
    ensures { IfOk result (λ copy. copy.items ≡ from.now) }
{
    let mut terms = Vec::new(alloc);
    for term in from {
        terms.push(term.try_clone(alloc)?)?;
    }
    Ok(terms)
}

#[cycle(copy)]
fn copy_trigger(alloc: Global, from: &Trigger) -> Result<Trigger, NoMemory>
    ensures { IfOk result (λ copy. copy ≡ from.now) }
{
    Ok(Trigger {
        terms: copy_terms(alloc, from.terms.as_slice())?,
    })
}

#[cycle(copy)]
#[tactic(auto, using(crate::proofs::Smaller::trigger_smaller))]
fn copy_triggers(alloc: Global, from: &[Trigger]) -> Result<Vec<Trigger>, NoMemory>
    ensures { IfOk result (λ copy. copy.items ≡ from.now) }
{
    let mut triggers = Vec::new(alloc);
    for trigger in from {
        triggers.push(copy_trigger(alloc, trigger)?)?;
    }
    Ok(triggers)
}

impl Formula {
    /// Returns a copy of the formula.
    #[cycle(copy)]
    pub fn try_clone(&self, alloc: Global) -> Result<Formula, NoMemory>
        ensures { IfOk result (λ copy. copy ≡ self.now) }
    {
        match &self.node {
            FormulaNode::Compare(operator, a, b) => copy_compare(alloc, *operator, a, b),
            FormulaNode::Is(of, a) => copy_is(alloc, of, a),
            FormulaNode::Holds(a) => copy_holds(alloc, a),
            FormulaNode::Not(p) => copy_not(alloc, p),
            FormulaNode::Join(operator, ps) => copy_join(alloc, *operator, ps.as_slice()),
            FormulaNode::Connect(operator, p, q) => copy_connect(alloc, *operator, p, q),
            FormulaNode::Quantify(operator, n, triggers, p) => {
                copy_quantify(alloc, *operator, *n, triggers.as_slice(), p)
            }
        }
    }
}

#[cycle(copy)]
fn copy_compare(
    alloc: Global,
    operator: Comparison,
    a: &Term,
    b: &Term,
) -> Result<Formula, NoMemory>
    ensures { IfOk result (λ copy. copy ≡ CompareFormula operator a.now b.now) }
{
    let a = copy_term(alloc, a)?;
    let b = copy_term(alloc, b)?;
    Ok(formula(FormulaNode::Compare(operator, a, b)))
}

#[cycle(copy)]
fn copy_is(alloc: Global, of: &TypeTerm, a: &Term) -> Result<Formula, NoMemory>
    ensures { IfOk result (λ copy. copy ≡ IsFormula of.now a.now) }
{
    let of = copy_type(alloc, of)?;
    let a = copy_term(alloc, a)?;
    Ok(formula(FormulaNode::Is(of, a)))
}

#[cycle(copy)]
fn copy_holds(alloc: Global, a: &Term) -> Result<Formula, NoMemory>
    ensures { IfOk result (λ copy. copy ≡ HoldsFormula a.now) }
{
    let a = copy_term(alloc, a)?;
    Ok(formula(FormulaNode::Holds(a)))
}

#[cycle(copy)]
fn copy_not(alloc: Global, p: &Formula) -> Result<Formula, NoMemory>
    ensures { IfOk result (λ copy. copy ≡ NotFormula p.now) }
{
    let p = copy_formula(alloc, p)?;
    Ok(formula(FormulaNode::Not(p)))
}

#[cycle(copy)]
fn copy_join(alloc: Global, operator: Junction, ps: &[Formula]) -> Result<Formula, NoMemory>
    ensures { IfOk result (λ copy. copy ≡ JoinFormula operator (formulas_of ps.now)) }
{
    let ps = copy_formulas(alloc, ps)?;
    Ok(formula(FormulaNode::Join(operator, ps)))
}

#[cycle(copy)]
fn copy_connect(
    alloc: Global,
    operator: Connective,
    p: &Formula,
    q: &Formula,
) -> Result<Formula, NoMemory>
    ensures { IfOk result (λ copy. copy ≡ ConnectFormula operator p.now q.now) }
{
    let p = copy_formula(alloc, p)?;
    let q = copy_formula(alloc, q)?;
    Ok(formula(FormulaNode::Connect(operator, p, q)))
}

#[cycle(copy)]
fn copy_quantify(
    alloc: Global,
    operator: Quantifier,
    n: u32,
    triggers: &[Trigger],
    p: &Formula,
) -> Result<Formula, NoMemory>
    ensures { IfOk result (λ copy. copy ≡ QuantifyFormula operator n (triggers_of triggers.now) p.now) }
{
    let triggers = copy_triggers(alloc, triggers)?;
    let p = copy_formula(alloc, p)?;
    Ok(formula(FormulaNode::Quantify(operator, n, triggers, p)))
}

/// Returns a copy of the formula, in a box.
#[cycle(copy)]
pub fn copy_formula(alloc: Global, from: &Formula) -> Result<Box<Formula>, NoMemory>
    ensures { IfOk result (λ copy. copy.value ≡ from.now) }
{
    Ok(Box::new(alloc, from.try_clone(alloc)?)?)
}

#[cycle(copy)]
#[tactic(auto, using(crate::proofs::Smaller::formula_smaller))]
fn copy_formulas(alloc: Global, from: &[Formula]) -> Result<Vec<Formula>, NoMemory>
    ensures { IfOk result (λ copy. copy.items ≡ from.now) }
{
    let mut formulas = Vec::new(alloc);
    for formula in from {
        formulas.push(formula.try_clone(alloc)?)?;
    }
    Ok(formulas)
}

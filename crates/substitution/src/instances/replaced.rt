//! Substitution of a term for a variable, with bound variables renamed.

ghost use Rattle.std.specs.Prelude.{◌≡◌, ◌+◌, IfOk, map};
ghost use Rattle.fol.specs.FormulaData.{UnaryTerm, BinaryTerm, TernaryTerm, PackTerm, FieldTerm, SetFieldTerm, IfTerm, CompareFormula, IsFormula, HoldsFormula, NotFormula, JoinFormula, ConnectFormula, QuantifyFormula, terms_of, triggers_of, formulas_of};
ghost use Rattle.fol.specs.FormulaView.{term_of_node, formula_of_node};
ghost use Rattle.substitution.specs.Instances.{binders_of};
ghost use Rattle.substitution.specs.Replaced.{put_for, number_for, replaced_term, replaced_terms, replaced_triggers, replaced, replaced_all};

use crate::binders::Binders;
use crate::free::is_free_in_term;
use base::memory::NoMemory;
use base::same::copy_type;
use base::types::TypeTerm;
use fol::formula::{Formula, FormulaNode, Term, TermNode, Trigger};
use fol::operators::{Binary, Comparison, Connective, Junction, Quantifier, Ternary, Unary};
use std::alloc::Global;

/// A substitution: the term for the free occurrences of the variable, and the next number for a binder whose own
/// number is free in the term.
#[derive(Clone, Copy)]
pub struct Put<'a> {
    pub variable: u32,
    pub term: &'a Term,
    pub next: u32,
}

fn term(node: TermNode) -> Term
    ensures { result ≡ term_of_node node }
{
    Term { node }
}

fn formula(node: FormulaNode) -> Formula
    ensures { result ≡ formula_of_node node }
{
    Formula { node }
}

// The term that replaces the variable with this number.
fn put_for<'a>(
    alloc: Global,
    binders: &'a Binders<'a>,
    put: Put<'_>,
    number: u32,
) -> Result<Term, NoMemory>
    ensures { IfOk result (λ made. made ≡ put_for (binders_of binders.now) put.entry.variable put.entry.term.now number) }
{
    match binders {
        Binders::Top => {
            if number == put.variable {
                put.term.try_clone(alloc)
            } else {
                Ok(Term::variable(number))
            }
        }
        Binders::Inside(outer, from, to) => {
            if number == *from {
                Ok(Term::variable(*to))
            } else {
                put_for(alloc, outer, put, number)
            }
        }
    }
}

// The number of a binder in the instance.
fn number_for(put: Put<'_>, number: u32) -> u32
    ensures { result ≡ number_for put.entry.term.now put.entry.next number }
{
    if is_free_in_term(number, put.term) {
        put.next
    } else {
        number
    }
}

// The substitution below a binder, if numbers are left.
fn further(put: Put<'_>) -> Result<Put<'_>, NoMemory>
    ensures { IfOk result (λ inside. (inside.variable ≡ put.entry.variable) × (inside.term ≡ put.entry.term) × (inside.next ≡ put.entry.next + 1)) }
{
    match put.next.checked_add(1) {
        Some(next) => Ok(Put {
            variable: put.variable,
            term: put.term,
            next,
        }),
        None => Err(NoMemory),
    }
}

// A function of its own makes each form that has parts, which keeps the proof of this one short.
#[cycle(replaced)]
pub fn replace_in_term<'a>(
    alloc: Global,
    binders: &'a Binders<'a>,
    put: Put<'_>,
    body: &Term,
) -> Result<Term, NoMemory>
    ensures { IfOk result (λ made. made ≡ replaced_term (binders_of binders.now) put.entry.next put.entry.variable put.entry.term.now body.now) }
{
    match &body.node {
        TermNode::Var(n) => put_for(alloc, binders, put, *n),
        TermNode::Constant(constant) => Ok(term(TermNode::Constant(*constant))),
        TermNode::Unary(operator, a) => in_unary(alloc, binders, put, *operator, a),
        TermNode::Binary(operator, a, b) => in_binary(alloc, binders, put, *operator, a, b),
        TermNode::Ternary(operator, a, b, c) => {
            in_ternary(alloc, binders, put, *operator, a, b, c)
        }
        TermNode::Pack(of, ts) => in_pack(alloc, binders, put, of, ts.as_slice()),
        TermNode::Field(of, k, a) => in_field(alloc, binders, put, of, *k, a),
        TermNode::SetField(of, k, a, b) => in_set_field(alloc, binders, put, of, *k, a, b),
        TermNode::If(p, a, b) => in_choice(alloc, binders, put, p, a, b),
    }
}

#[cycle(replaced)]
fn in_unary<'a>(
    alloc: Global,
    binders: &'a Binders<'a>,
    put: Put<'_>,
    operator: Unary,
    a: &Term,
) -> Result<Term, NoMemory>
    ensures { IfOk result (λ made. made ≡ replaced_term (binders_of binders.now) put.entry.next put.entry.variable put.entry.term.now (UnaryTerm operator a.now)) }
{
    let a = put_in_term(alloc, binders, put, a)?;
    Ok(term(TermNode::Unary(operator, a)))
}

#[cycle(replaced)]
fn in_binary<'a>(
    alloc: Global,
    binders: &'a Binders<'a>,
    put: Put<'_>,
    operator: Binary,
    a: &Term,
    b: &Term,
) -> Result<Term, NoMemory>
    ensures { IfOk result (λ made. made ≡ replaced_term (binders_of binders.now) put.entry.next put.entry.variable put.entry.term.now (BinaryTerm operator a.now b.now)) }
{
    let a = put_in_term(alloc, binders, put, a)?;
    let b = put_in_term(alloc, binders, put, b)?;
    Ok(term(TermNode::Binary(operator, a, b)))
}

#[cycle(replaced)]
fn in_ternary<'a>(
    alloc: Global,
    binders: &'a Binders<'a>,
    put: Put<'_>,
    operator: Ternary,
    a: &Term,
    b: &Term,
    c: &Term,
) -> Result<Term, NoMemory>
    ensures { IfOk result (λ made. made ≡ replaced_term (binders_of binders.now) put.entry.next put.entry.variable put.entry.term.now (TernaryTerm operator a.now b.now c.now)) }
{
    let a = put_in_term(alloc, binders, put, a)?;
    let b = put_in_term(alloc, binders, put, b)?;
    let c = put_in_term(alloc, binders, put, c)?;
    Ok(term(TermNode::Ternary(operator, a, b, c)))
}

#[cycle(replaced)]
#[tactic(auto, using(crate::proofs::InstancesLists::terms_of_map))]
fn in_pack<'a>(
    alloc: Global,
    binders: &'a Binders<'a>,
    put: Put<'_>,
    of: &TypeTerm,
    ts: &[Term],
) -> Result<Term, NoMemory>
    ensures { IfOk result (λ made. made ≡ replaced_term (binders_of binders.now) put.entry.next put.entry.variable put.entry.term.now (PackTerm of.now (terms_of ts.now))) }
{
    let of = copy_type(alloc, of)?;
    let ts = in_terms(alloc, binders, put, ts)?;
    Ok(term(TermNode::Pack(of, ts)))
}

#[cycle(replaced)]
fn in_field<'a>(
    alloc: Global,
    binders: &'a Binders<'a>,
    put: Put<'_>,
    of: &TypeTerm,
    k: u32,
    a: &Term,
) -> Result<Term, NoMemory>
    ensures { IfOk result (λ made. made ≡ replaced_term (binders_of binders.now) put.entry.next put.entry.variable put.entry.term.now (FieldTerm of.now k a.now)) }
{
    let of = copy_type(alloc, of)?;
    let a = put_in_term(alloc, binders, put, a)?;
    Ok(term(TermNode::Field(of, k, a)))
}

#[cycle(replaced)]
fn in_set_field<'a>(
    alloc: Global,
    binders: &'a Binders<'a>,
    put: Put<'_>,
    of: &TypeTerm,
    k: u32,
    a: &Term,
    b: &Term,
) -> Result<Term, NoMemory>
    ensures { IfOk result (λ made. made ≡ replaced_term (binders_of binders.now) put.entry.next put.entry.variable put.entry.term.now (SetFieldTerm of.now k a.now b.now)) }
{
    let of = copy_type(alloc, of)?;
    let a = put_in_term(alloc, binders, put, a)?;
    let b = put_in_term(alloc, binders, put, b)?;
    Ok(term(TermNode::SetField(of, k, a, b)))
}

#[cycle(replaced)]
fn in_choice<'a>(
    alloc: Global,
    binders: &'a Binders<'a>,
    put: Put<'_>,
    p: &Formula,
    a: &Term,
    b: &Term,
) -> Result<Term, NoMemory>
    ensures { IfOk result (λ made. made ≡ replaced_term (binders_of binders.now) put.entry.next put.entry.variable put.entry.term.now (IfTerm p.now a.now b.now)) }
{
    let p = put_in_formula(alloc, binders, put, p)?;
    let a = put_in_term(alloc, binders, put, a)?;
    let b = put_in_term(alloc, binders, put, b)?;
    Ok(term(TermNode::If(p, a, b)))
}

#[cycle(replaced)]
fn put_in_term<'a>(
    alloc: Global,
    binders: &'a Binders<'a>,
    put: Put<'_>,
    body: &Term,
) -> Result<Box<Term>, NoMemory>
    ensures { IfOk result (λ made. made.value ≡ replaced_term (binders_of binders.now) put.entry.next put.entry.variable put.entry.term.now body.now) }
{
    Ok(Box::new(alloc, replace_in_term(alloc, binders, put, body)?)?)
}

#[cycle(replaced)]
#[tactic(auto, using(fol::proofs::Smaller::term_smaller))]
fn in_terms<'a>(
    alloc: Global,
    binders: &'a Binders<'a>,
    put: Put<'_>,
    from: &[Term],
) -> Result<Vec<Term>, NoMemory>
    ensures { IfOk result (λ made. made.items ≡ map (replaced_term (binders_of binders.now) put.entry.next put.entry.variable put.entry.term.now) from.now) }
{
    let mut terms = Vec::new(alloc);
    for body in from {
        terms.push(replace_in_term(alloc, binders, put, body)?)?;
    }
    Ok(terms)
}

#[cycle(replaced)]
#[tactic(auto, using(crate::proofs::InstancesLists::terms_of_map))]
fn in_trigger<'a>(
    alloc: Global,
    binders: &'a Binders<'a>,
    put: Put<'_>,
    from: &Trigger,
) -> Result<Trigger, NoMemory>
    ensures { IfOk result (λ made. made ≡ replaced_terms (binders_of binders.now) put.entry.next put.entry.variable put.entry.term.now from.now) }
{
    Ok(Trigger {
        terms: in_terms(alloc, binders, put, from.terms.as_slice())?,
    })
}

#[cycle(replaced)]
#[tactic(auto, using(fol::proofs::Smaller::trigger_smaller))]
fn in_triggers<'a>(
    alloc: Global,
    binders: &'a Binders<'a>,
    put: Put<'_>,
    from: &[Trigger],
) -> Result<Vec<Trigger>, NoMemory>
    ensures { IfOk result (λ made. made.items ≡ map (replaced_terms (binders_of binders.now) put.entry.next put.entry.variable put.entry.term.now) from.now) }
{
    let mut triggers = Vec::new(alloc);
    for trigger in from {
        triggers.push(in_trigger(alloc, binders, put, trigger)?)?;
    }
    Ok(triggers)
}

#[cycle(replaced)]
pub fn replace_in<'a>(
    alloc: Global,
    binders: &'a Binders<'a>,
    put: Put<'_>,
    body: &Formula,
) -> Result<Formula, NoMemory>
    ensures { IfOk result (λ made. made ≡ replaced (binders_of binders.now) put.entry.next put.entry.variable put.entry.term.now body.now) }
{
    match &body.node {
        FormulaNode::Compare(operator, a, b) => in_compare(alloc, binders, put, *operator, a, b),
        FormulaNode::Is(of, a) => in_is(alloc, binders, put, of, a),
        FormulaNode::Holds(a) => in_holds(alloc, binders, put, a),
        FormulaNode::Not(p) => in_not(alloc, binders, put, p),
        FormulaNode::Join(operator, ps) => {
            in_join(alloc, binders, put, *operator, ps.as_slice())
        }
        FormulaNode::Connect(operator, p, q) => in_connect(alloc, binders, put, *operator, p, q),
        FormulaNode::Quantify(operator, n, triggers, p) => {
            in_quantify(alloc, binders, put, *operator, *n, triggers.as_slice(), p)
        }
    }
}

#[cycle(replaced)]
fn in_compare<'a>(
    alloc: Global,
    binders: &'a Binders<'a>,
    put: Put<'_>,
    operator: Comparison,
    a: &Term,
    b: &Term,
) -> Result<Formula, NoMemory>
    ensures { IfOk result (λ made. made ≡ replaced (binders_of binders.now) put.entry.next put.entry.variable put.entry.term.now (CompareFormula operator a.now b.now)) }
{
    let a = put_in_term(alloc, binders, put, a)?;
    let b = put_in_term(alloc, binders, put, b)?;
    Ok(formula(FormulaNode::Compare(operator, a, b)))
}

#[cycle(replaced)]
fn in_is<'a>(
    alloc: Global,
    binders: &'a Binders<'a>,
    put: Put<'_>,
    of: &TypeTerm,
    a: &Term,
) -> Result<Formula, NoMemory>
    ensures { IfOk result (λ made. made ≡ replaced (binders_of binders.now) put.entry.next put.entry.variable put.entry.term.now (IsFormula of.now a.now)) }
{
    let of = copy_type(alloc, of)?;
    let a = put_in_term(alloc, binders, put, a)?;
    Ok(formula(FormulaNode::Is(of, a)))
}

#[cycle(replaced)]
fn in_holds<'a>(
    alloc: Global,
    binders: &'a Binders<'a>,
    put: Put<'_>,
    a: &Term,
) -> Result<Formula, NoMemory>
    ensures { IfOk result (λ made. made ≡ replaced (binders_of binders.now) put.entry.next put.entry.variable put.entry.term.now (HoldsFormula a.now)) }
{
    let a = put_in_term(alloc, binders, put, a)?;
    Ok(formula(FormulaNode::Holds(a)))
}

#[cycle(replaced)]
fn in_not<'a>(
    alloc: Global,
    binders: &'a Binders<'a>,
    put: Put<'_>,
    p: &Formula,
) -> Result<Formula, NoMemory>
    ensures { IfOk result (λ made. made ≡ replaced (binders_of binders.now) put.entry.next put.entry.variable put.entry.term.now (NotFormula p.now)) }
{
    let p = put_in_formula(alloc, binders, put, p)?;
    Ok(formula(FormulaNode::Not(p)))
}

#[cycle(replaced)]
#[tactic(auto, using(crate::proofs::InstancesLists::formulas_of_map))]
fn in_join<'a>(
    alloc: Global,
    binders: &'a Binders<'a>,
    put: Put<'_>,
    operator: Junction,
    ps: &[Formula],
) -> Result<Formula, NoMemory>
    ensures { IfOk result (λ made. made ≡ replaced (binders_of binders.now) put.entry.next put.entry.variable put.entry.term.now (JoinFormula operator (formulas_of ps.now))) }
{
    let ps = in_formulas(alloc, binders, put, ps)?;
    Ok(formula(FormulaNode::Join(operator, ps)))
}

#[cycle(replaced)]
fn in_connect<'a>(
    alloc: Global,
    binders: &'a Binders<'a>,
    put: Put<'_>,
    operator: Connective,
    p: &Formula,
    q: &Formula,
) -> Result<Formula, NoMemory>
    ensures { IfOk result (λ made. made ≡ replaced (binders_of binders.now) put.entry.next put.entry.variable put.entry.term.now (ConnectFormula operator p.now q.now)) }
{
    let p = put_in_formula(alloc, binders, put, p)?;
    let q = put_in_formula(alloc, binders, put, q)?;
    Ok(formula(FormulaNode::Connect(operator, p, q)))
}

#[cycle(replaced)]
#[tactic(auto, using(crate::proofs::InstancesLists::triggers_of_map))]
fn in_quantify<'a>(
    alloc: Global,
    binders: &'a Binders<'a>,
    put: Put<'_>,
    operator: Quantifier,
    n: u32,
    triggers: &[Trigger],
    p: &Formula,
) -> Result<Formula, NoMemory>
    ensures { IfOk result (λ made. made ≡ replaced (binders_of binders.now) put.entry.next put.entry.variable put.entry.term.now (QuantifyFormula operator n (triggers_of triggers.now) p.now)) }
{
    let to = number_for(put, n);
    let inside = Binders::Inside(binders, n, to);
    let put = further(put)?;
    let triggers = in_triggers(alloc, &inside, put, triggers)?;
    let p = put_in_formula(alloc, &inside, put, p)?;
    Ok(formula(FormulaNode::Quantify(operator, to, triggers, p)))
}

#[cycle(replaced)]
fn put_in_formula<'a>(
    alloc: Global,
    binders: &'a Binders<'a>,
    put: Put<'_>,
    body: &Formula,
) -> Result<Box<Formula>, NoMemory>
    ensures { IfOk result (λ made. made.value ≡ replaced (binders_of binders.now) put.entry.next put.entry.variable put.entry.term.now body.now) }
{
    Ok(Box::new(alloc, replace_in(alloc, binders, put, body)?)?)
}

#[cycle(replaced)]
#[tactic(auto, using(fol::proofs::Smaller::formula_smaller))]
fn in_formulas<'a>(
    alloc: Global,
    binders: &'a Binders<'a>,
    put: Put<'_>,
    from: &[Formula],
) -> Result<Vec<Formula>, NoMemory>
    ensures { IfOk result (λ made. made.items ≡ map (replaced (binders_of binders.now) put.entry.next put.entry.variable put.entry.term.now) from.now) }
{
    let mut formulas = Vec::new(alloc);
    for body in from {
        formulas.push(replace_in(alloc, binders, put, body)?)?;
    }
    Ok(formulas)
}

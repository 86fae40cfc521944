//! Terms that match by the type with which a body begins.

ghost use Rattle.std.specs.Prelude.{◌≡◌, ◌↔◌, None, Some, OnOk, IsTrue, MatchOption};
ghost use Rattle.fol.specs.FormulaData.{VarTerm, NoFormulas};
ghost use Rattle.term_pool.specs.Items.{FormulasSort, TypeSort, formulas_in};
ghost use Rattle.term_pool.specs.Pools.{item_at};
ghost use Rattle.term_pool.specs.declared.node.Two.TheVariants.{Is as IsHead};
ghost use Rattle.term_pool.specs.declared.node.Node.TheVariants.{Two as TwoNode};
ghost use Rattle.tableau.specs.PoolBranches.{branch_in, IsFormulaNumber, IsTermNumber, IsOver};
ghost use Rattle.ematching.specs.Numbers.{term_at, formula_at, IsOfSort};
ghost use Rattle.ematching.specs.Heads.{HasHead, IsIndexOf};
ghost use Rattle.ematching.specs.Matches.{lead_of, typing_of, AreAdded, IsBeginning, IsFirstFormula, IsFirstOr, BeginsWith, BeginsWithNone, IsTermGiven, IsTypedMatch, IsGivenType, IsTyping, IsNoTyping};

use crate::found::Found;
use crate::heads::HeadIndex;
use crate::quantified::Universal;
use base::memory::NoMemory;
use fol::operators::{Connective, Junction};
use std::alloc::Global;
use tableau::branch::PoolBranch;
use term_pool::node::{Leaf, Node, One, Two, are_one};
use term_pool::pool::Pool;

// The beginning of a body: the premise of an implication, or the first part of a conjunction.
#[derive(Clone, Copy)]
enum Lead {
    Formula(usize),
    // The first formula of this list.
    Listed(usize),
}

fn lead_of(node: Node) -> Option<Lead>
    ensures { result ≡ lead_of node }
{
    match node {
        Node::Two(Two::Connect(Connective::Implies), first, _) => Some(Lead::Formula(first)),
        Node::One(One::Join(Junction::AllOf), list) => Some(Lead::Listed(list)),
        _ => None,
    }
}

// The numbers of the first formula of a list and of the rest.
fn first_formula(pool: &Pool, list: usize) -> Option<(usize, usize)>
    requires { IsOfSort pool.now FormulasSort list }
    ensures { MatchOption result (formulas_in (item_at pool.now list) ≡ NoFormulas) (IsFirstFormula pool.now list) }
{
    match pool.node(list) {
        Some(Node::Two(Two::ConsFormula, first, rest)) => Some((first, rest)),
        _ => None,
    }
}

// The number of the first formula of a list, or another one if the list is empty.
fn first_or(pool: &Pool, list: usize, otherwise: usize) -> usize
    requires { IsOfSort pool.now FormulasSort list }
    ensures { IsFirstOr pool.now list otherwise result }
{
    match first_formula(pool, list) {
        Some((first, _)) => first,
        None => otherwise,
    }
}

// The formula with which the body begins.
fn beginning(pool: &Pool, body: usize) -> usize
    requires { IsFormulaNumber pool.now body }
    ensures { IsBeginning pool.now body result }
{
    let Some(node) = pool.node(body) else {
        return body;
    };
    let Some(lead) = lead_of(node) else {
        return body;
    };
    match lead {
        Lead::Formula(first) => first,
        Lead::Listed(list) => first_or(pool, list, body),
    }
}

// The numbers of the type and of the term, if the node is a typing of a term.
fn typing_of(node: Node) -> Option<(usize, usize)>
    ensures { result ≡ typing_of node }
{
    match node {
        Node::Two(Two::Is, type_number, term) => Some((type_number, term)),
        _ => None,
    }
}

// Decides whether the term is the variable.
fn is_variable(pool: &Pool, term: usize, variable: u32) -> bool
    requires { IsTermNumber pool.now term }
    ensures { IsTrue result ↔ (term_at pool.now term ≡ VarTerm variable) }
{
    match pool.node(term) {
        Some(node) => are_one(node, Node::Leaf(Leaf::Var(variable))),
        None => false,
    }
}

// The number of the type that the beginning of the body gives to the variable.
fn begun_type(pool: &Pool, body: usize, variable: u32) -> Option<usize>
    requires { IsFormulaNumber pool.now body }
    ensures { MatchOption result (BeginsWithNone (formula_at pool.now body) variable) (BeginsWith pool.now (formula_at pool.now body) variable) }
{
    let first = beginning(pool, body);
    let Some(node) = pool.node(first) else {
        return None;
    };
    let Some((type_number, term)) = typing_of(node) else {
        return None;
    };
    if is_variable(pool, term, variable) {
        return Some(type_number);
    }
    None
}

/// Finds the terms to which an entry gives the type with which the body begins.
pub(crate) fn typed(
    alloc: Global,
    pool: &Pool,
    branch: &PoolBranch,
    index: &HeadIndex,
    quantified: Universal,
    given: Option<usize>,
    found: &mut Found,
) -> Result<(), NoMemory>
    requires over { IsOver pool.now branch.now }
    requires index { IsIndexOf pool.now index.now }
    requires body { IsFormulaNumber pool.now quantified.body }
    requires given { IsTermGiven pool.now given }
    ensures { OnOk result (AreAdded pool.now given (IsTypedMatch (branch_in pool.now branch.now) (formula_at pool.now quantified.body) quantified.variable pool.now) found.old found.new) }
{
    let Some(type_number) = begun_type(pool, quantified.body, quantified.variable) else {
        return Ok(());
    };
    match given {
        Some(term) => typed_term(pool, branch, type_number, term, found),
        None => typed_terms(alloc, pool, branch, index, type_number, found),
    }
}

// Finds the term if an entry gives it the type.
fn typed_term(
    pool: &Pool,
    branch: &PoolBranch,
    type_number: usize,
    term: usize,
    found: &mut Found,
) -> Result<(), NoMemory>
    requires over { IsOver pool.now branch.now }
    requires type_number { IsOfSort pool.now TypeSort type_number }
    requires term { IsTermNumber pool.now term }
    ensures { OnOk result (AreAdded pool.now (Some term) (IsGivenType pool.now (branch_in pool.now branch.now) type_number) found.old found.new) }
{
    pool.one_number();
    let Some(formula) = pool.find(Node::Two(Two::Is, type_number, term)) else {
        return Ok(());
    };
    if !branch.stands(pool, formula) {
        return Ok(());
    }
    found.insert(term)
}

// The term to which the formula gives a type, if the formula is on the branch.
fn typed_by(pool: &Pool, branch: &PoolBranch, type_number: usize, formula: usize) -> Option<usize>
    requires over { IsOver pool.now branch.now }
    requires head { HasHead pool.now (TwoNode IsHead type_number 0) formula }
    ensures { MatchOption result (IsNoTyping pool.now (branch_in pool.now branch.now) type_number formula) (IsTyping pool.now (branch_in pool.now branch.now) type_number formula) }
{
    let Some(node) = pool.node(formula) else {
        return None;
    };
    let Some((_, term)) = typing_of(node) else {
        return None;
    };
    if branch.stands(pool, formula) {
        return Some(term);
    }
    None
}

// Finds the terms to which an entry gives the type.
fn typed_terms(
    alloc: Global,
    pool: &Pool,
    branch: &PoolBranch,
    index: &HeadIndex,
    type_number: usize,
    found: &mut Found,
) -> Result<(), NoMemory>
    requires over { IsOver pool.now branch.now }
    requires index { IsIndexOf pool.now index.now }
    requires type_number { IsOfSort pool.now TypeSort type_number }
    ensures { OnOk result (AreAdded pool.now None (IsGivenType pool.now (branch_in pool.now branch.now) type_number) found.old found.new) }
{
    pool.one_number();
    let formulas = index.with_head(alloc, Node::Two(Two::Is, type_number, 0))?;
    for formula in &formulas {
        let Some(term) = typed_by(pool, branch, type_number, *formula) else {
            continue;
        };
        found.insert(term)?;
    }
    Ok(())
}

//! Existential entries that have no name.

ghost use Rattle.std.specs.Prelude.{◌≡◌, ◌↔◌, ◌≤◌, length, IsTrue, IfOk, MatchOption};
ghost use Rattle.fol.specs.FormulaData.{NotFormula, VarTerm};
ghost use Rattle.term_pool.specs.Pools.{Extends};
ghost use Rattle.certificates.specs.Due.{IsShallow};
ghost use Rattle.tableau.specs.PoolBranches.{branch_in, IsFormulaNumber, IsOver};
ghost use Rattle.term_pool.specs.Put.{put_in};
ghost use Rattle.tableau.specs.Numbers.{formula_at, IsNumberOf};
ghost use Rattle.tableau.specs.Variables.{AreAbove};
ghost use Rattle.tableau.specs.Names.{NoNameAt, NoNameBefore, NoName};
ghost use Rattle.tableau.specs.Existentials.{body_of, IsNotForAll, IsNotExistential, IsExistential, IsUnnamed, IsFirstUnnamed};

use crate::branch::PoolBranch;
use crate::names::variables::Variables;
use base::memory::NoMemory;
use fol::operators::Quantifier;
use std::alloc::Global;
use term_pool::node::{Leaf, Node, One, Two};
use term_pool::pool::{MOST_DEPTH, Pool};
use term_pool::pool_substitution::put::{Put, put_in};

// The body of an existential formula, or the negated body.
#[derive(Clone, Copy)]
pub(crate) struct Existential {
    pub(crate) variable: u32,
    // The number of the body.
    pub(crate) body: usize,
    pub(crate) is_negated: bool,
}

// The number of an entry, and its existential formula.
#[derive(Clone, Copy)]
pub(crate) struct Unnamed {
    pub(crate) entry: usize,
    pub(crate) existential: Existential,
}

// The existential formula, where a negated universal formula counts as one.
fn existential_of(pool: &Pool, formula: usize) -> Option<Existential>
    requires { IsFormulaNumber pool.now formula }
    ensures { MatchOption result (IsNotExistential (formula_at pool.now formula)) (IsExistential pool.now (formula_at pool.now formula)) }
{
    match pool.node(formula) {
        Some(Node::Two(Two::Quantify(Quantifier::Exists, variable), _, body)) => Some(
            Existential {
                variable,
                body,
                is_negated: false,
            },
        ),
        Some(Node::One(One::Not, inner)) => not_for_all(pool, inner),
        _ => None,
    }
}

// The existential formula of the negation of a formula, if that is a universal one.
fn not_for_all(pool: &Pool, formula: usize) -> Option<Existential>
    requires { IsFormulaNumber pool.now formula }
    ensures { MatchOption result (IsNotForAll (formula_at pool.now formula)) (IsExistential pool.now (NotFormula (formula_at pool.now formula))) }
{
    match pool.node(formula) {
        Some(Node::Two(Two::Quantify(Quantifier::ForAll, variable), _, body)) => Some(
            Existential {
                variable,
                body,
                is_negated: true,
            },
        ),
        _ => None,
    }
}

// Decides whether the instances are no deeper than a step may add; a name does not change the depth.
fn is_shallow(pool: &Pool, existential: Existential) -> bool
    requires { IsFormulaNumber pool.now existential.body }
    ensures { IsTrue result ↔ IsShallow (body_of existential.is_negated (formula_at pool.now existential.body)) }
{
    if existential.is_negated {
        pool.depth(existential.body) < MOST_DEPTH
    } else {
        pool.depth(existential.body) <= MOST_DEPTH
    }
}

// The existential formula of the entry with this number, if a name may be due.
fn unnamed_at(
    pool: &Pool,
    branch: &PoolBranch,
    variables: &Variables,
    i: usize,
) -> Option<Existential>
    requires over { IsOver pool.now branch.now }
    requires above { AreAbove pool.now branch.now.entries variables.now }
    requires all { length branch.now.entries ≤ length variables.now.entries }
    ensures { MatchOption result (NoNameAt (branch_in pool.now branch.now) i) (IsUnnamed pool.now (branch_in pool.now branch.now) i) }
{
    let Some(entry) = branch.entry(i) else {
        return None;
    };
    let Some(existential) = existential_of(pool, entry.formula) else {
        return None;
    };
    if variables.is_named(i) {
        return None;
    }
    if is_shallow(pool, existential) {
        return Some(existential);
    }
    None
}

// Finds the first entry from this one on at which a name may be due.
pub(crate) fn next_unnamed(
    pool: &Pool,
    branch: &PoolBranch,
    variables: &Variables,
    from: usize,
) -> Option<Unnamed>
    requires over { IsOver pool.now branch.now }
    requires above { AreAbove pool.now branch.now.entries variables.now }
    requires all { length branch.now.entries ≤ length variables.now.entries }
    requires before { NoNameBefore (branch_in pool.now branch.now) from }
    ensures { MatchOption result (NoName (branch_in pool.now branch.now)) (IsFirstUnnamed pool.now (branch_in pool.now branch.now)) }
{
    for i in from..branch.len() {
        if let Some(existential) = unnamed_at(pool, branch, variables, i) {
            return Some(Unnamed {
                entry: i,
                existential,
            });
        }
    }
    None
}

// Returns the number of the instance, with a variable substituted for the bound one.
pub(crate) fn named(
    alloc: Global,
    pool: &mut Pool,
    existential: Existential,
    name: u32,
) -> Result<usize, NoMemory>
    requires { IsFormulaNumber pool.old existential.body }
    ensures extends { Extends pool.old pool.new }
    ensures is { IfOk result (IsNumberOf pool.new (body_of existential.is_negated (put_in existential.variable (VarTerm name) (formula_at pool.old existential.body)))) }
{
    let term = pool.insert(Node::Leaf(Leaf::Var(name)))?;
    let put = Put {
        variable: existential.variable,
        term,
    };
    let body = put_in(alloc, pool, put, existential.body)?;
    if existential.is_negated {
        return pool.insert(Node::One(One::Not, body));
    }
    Ok(body)
}

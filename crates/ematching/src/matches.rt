//! The terms of a branch that match a quantified formula.

ghost use Rattle.std.specs.Prelude.{◌≡◌, ◌↔◌, [], ◌∷◌, None, Some, IfOk, OnOk, IsTrue, MatchOption, Contains};
ghost use Rattle.fol.specs.FormulaData.{list_of_triggers};
ghost use Rattle.term_pool.specs.Items.{TermsSort, TriggersSort};
ghost use Rattle.certificates.specs.Due.{IsMatched};
ghost use Rattle.certificates.specs.Match.{IsTriggered, bound_in};
ghost use Rattle.tableau.specs.PoolBranches.{branch_in, IsFormulaNumber, IsTermNumber, IsOver};
ghost use Rattle.ematching.specs.Numbers.{term_at, terms_at, triggers_at, formula_at, IsOfSort};
ghost use Rattle.ematching.specs.Heads.{IsIndexOf};
ghost use Rattle.ematching.specs.Joins.{IsWanted};
ghost use Rattle.ematching.specs.Matches.{AreMatches, AreMeant, AreAdded, IsMatchedBy, IsMatchOf, IsTermGiven, IsBegun, IsFirstTriggerOf, HasTrigger};

use crate::found::Found;
use crate::heads::HeadIndex;
use crate::joins::{Wanted, join};
use crate::quantified::{Universal, quantified};
use crate::rows::rows;
use crate::types::typed;
use crate::walk::{bound_variables, free_at};
use base::memory::NoMemory;
use std::alloc::Global;
use tableau::branch::PoolBranch;
use tableau::log::Log;
use term_pool::node::{Node, Two};
use term_pool::pool::Pool;

/// Returns the numbers of the terms of the branch that match the formula, each once; none if the formula is not
/// universal.
pub fn matches(
    alloc: Global,
    pool: &Pool,
    branch: &PoolBranch,
    index: &HeadIndex,
    formula: usize,
) -> Result<Vec<usize>, NoMemory>
    requires over { IsOver pool.now branch.now }
    requires index { IsIndexOf pool.now index.now }
    requires formula { IsFormulaNumber pool.now formula }
    ensures { IfOk result (λ numbers. AreMatches pool.now (branch_in pool.now branch.now) (formula_at pool.now formula) numbers.items) }
{
    let found = matched(alloc, pool, branch, index, formula, None)?;
    found.listed(alloc)
}

/// Decides whether the term matches the formula.
pub fn is_matched(
    alloc: Global,
    pool: &Pool,
    branch: &PoolBranch,
    index: &HeadIndex,
    formula: usize,
    term: usize,
) -> Result<bool, NoMemory>
    requires over { IsOver pool.now branch.now }
    requires index { IsIndexOf pool.now index.now }
    requires formula { IsFormulaNumber pool.now formula }
    requires term { IsTermNumber pool.now term }
    ensures { IfOk result (λ r. IsTrue r ↔ IsMatched (branch_in pool.now branch.now) (term_at pool.now term) (formula_at pool.now formula)) }
{
    let found = matched(alloc, pool, branch, index, formula, Some(term))?;
    Ok(!found.is_empty())
}

// The terms that match the formula: all of them, or the given one if it does.
fn matched(
    alloc: Global,
    pool: &Pool,
    branch: &PoolBranch,
    index: &HeadIndex,
    formula: usize,
    given: Option<usize>,
) -> Result<Found, NoMemory>
    requires over { IsOver pool.now branch.now }
    requires index { IsIndexOf pool.now index.now }
    requires formula { IsFormulaNumber pool.now formula }
    requires given { IsTermGiven pool.now given }
    ensures { IfOk result (AreMeant pool.now given (IsMatchedBy pool.now (branch_in pool.now branch.now) (formula_at pool.now formula))) }
{
    let mut found = Found::new(alloc);
    let Some(universal) = quantified(pool, formula) else {
        return Ok(found);
    };
    matched_by(alloc, pool, branch, index, universal, given, &mut found)?;
    Ok(found)
}

// Finds the terms that match the variable.
fn matched_by(
    alloc: Global,
    pool: &Pool,
    branch: &PoolBranch,
    index: &HeadIndex,
    universal: Universal,
    given: Option<usize>,
    found: &mut Found,
) -> Result<(), NoMemory>
    requires over { IsOver pool.now branch.now }
    requires index { IsIndexOf pool.now index.now }
    requires triggers { IsOfSort pool.now TriggersSort universal.triggers }
    requires body { IsFormulaNumber pool.now universal.body }
    requires given { IsTermGiven pool.now given }
    ensures { OnOk result (AreAdded pool.now given (IsMatchOf pool.now (branch_in pool.now branch.now) universal) found.old found.new) }
{
    let position = free_at(alloc, pool, universal.variable, universal.triggers)?;
    match position {
        Some(_) => triggered(alloc, pool, branch, index, universal, given, found),
        None => typed(alloc, pool, branch, index, universal, given, found),
    }
}

// The numbers of the first trigger of a list and of the rest.
fn first_trigger(pool: &Pool, list: usize) -> Option<(usize, usize)>
    requires { IsOfSort pool.now TriggersSort list }
    ensures { MatchOption result (list_of_triggers (triggers_at pool.now list) ≡ []) (IsFirstTriggerOf pool.now list) }
{
    match pool.node(list) {
        Some(Node::Two(Two::ConsTrigger, first, rest)) => Some((first, rest)),
        _ => None,
    }
}

// Finds the terms that match by a trigger.
fn triggered(
    alloc: Global,
    pool: &Pool,
    branch: &PoolBranch,
    index: &HeadIndex,
    universal: Universal,
    given: Option<usize>,
    found: &mut Found,
) -> Result<(), NoMemory>
    requires over { IsOver pool.now branch.now }
    requires index { IsIndexOf pool.now index.now }
    requires triggers { IsOfSort pool.now TriggersSort universal.triggers }
    requires body { IsFormulaNumber pool.now universal.body }
    requires given { IsTermGiven pool.now given }
    ensures { OnOk result (AreAdded pool.now given (HasTrigger (branch_in pool.now branch.now) (universal.variable ∷ bound_in (formula_at pool.now universal.body)) universal.variable (list_of_triggers (triggers_at pool.now universal.triggers)) pool.now) found.old found.new) }
{
    let bound = bound_variables(alloc, pool, universal.variable, universal.body)?;
    let mut triggers = universal.triggers;
    while let Some((trigger, rest)) = first_trigger(pool, triggers) {
        triggered_by(
            alloc,
            pool,
            branch,
            index,
            bound.as_slice(),
            universal.variable,
            trigger,
            given,
            found,
        )?;
        triggers = rest;
    }
    Ok(())
}

// The matches that are recorded at first: the variable has the given term as its value, if there is one.
fn begun(
    alloc: Global,
    pool: &Pool,
    bound: &[u32],
    wanted: Wanted,
    given: Option<usize>,
) -> Result<Log, NoMemory>
    requires wanted { IsWanted pool.now bound.now wanted }
    requires given { IsTermGiven pool.now given }
    ensures { IfOk result (IsBegun pool.now bound.now wanted.variable given) }
{
    pool.one_number();
    let mut values = Log::new(alloc);
    let Some(term) = given else {
        return Ok(values);
    };
    let Some(_) = pool.node(term) else {
        return Ok(values);
    };
    values.write(pool.len(), wanted.number, term)?;
    Ok(values)
}

// Finds the terms that match by this trigger.
fn triggered_by(
    alloc: Global,
    pool: &Pool,
    branch: &PoolBranch,
    index: &HeadIndex,
    bound: &[u32],
    variable: u32,
    trigger: usize,
    given: Option<usize>,
    found: &mut Found,
) -> Result<(), NoMemory>
    requires over { IsOver pool.now branch.now }
    requires index { IsIndexOf pool.now index.now }
    requires bound { Contains bound.now variable }
    requires trigger { IsOfSort pool.now TermsSort trigger }
    requires given { IsTermGiven pool.now given }
    ensures { OnOk result (AreAdded pool.now given (λ v. IsTriggered (branch_in pool.now branch.now) bound.now variable (term_at pool.now v) (terms_at pool.now trigger)) found.old found.new) }
{
    let position = free_at(alloc, pool, variable, trigger)?;
    let Some(number) = position else {
        return Ok(());
    };
    let wanted = Wanted { variable, number };
    let mut values = begun(alloc, pool, bound, wanted, given)?;
    let rows = rows(alloc, pool, branch, index, bound, trigger)?;
    join(
        alloc,
        pool,
        bound,
        wanted,
        rows.as_slice(),
        &mut values,
        found,
    )
}

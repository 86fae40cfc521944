//! Due instances of quantified entries.

ghost use Rattle.std.specs.Prelude.{OnOk, IfOk, MatchOption};
ghost use Rattle.term_pool.specs.Pools.{Extends};
ghost use Rattle.certificates.specs.Due.{IsMatched};
ghost use Rattle.tableau.specs.PoolBranches.{branch_in, IsTermNumber, IsOver};
ghost use Rattle.ematching.specs.Heads.{IsIndex};
ghost use Rattle.ematching.specs.Matches.{AreMatches};
ghost use Rattle.ematching.specs.Numbers.{term_at, formula_at};
ghost use Rattle.ematching.specs.QuantifierFree.{AreFree};
ghost use Rattle.ematching.specs.Instances.{NoInstanceFor, NoInstanceAt, NoInstance, IsInstanceAt, IsInstanceStep, IsNextGeneration, HasNoGeneration, IsQuantifiedEntry, IsQuantifiedAt};

use crate::heads::HeadIndex;
use crate::instances::made::said_of;
use crate::instances::quantifiers::QuantifierFree;
use crate::instances::said::is_said;
use crate::matches::matches;
use crate::quantified::{Universal, quantified};
use base::memory::NoMemory;
use std::alloc::Global;
use tableau::branch::PoolBranch;
use term_pool::pool::{MOST_DEPTH, Pool};

/// The greatest number of gamma instances that lead to a formula.
const MOST_GENERATIONS: usize = 3;

/// An application of the gamma rule: an entry, a term that matches it, and the instance of the entry for the term.
#[derive(Clone, Copy)]
pub struct InstanceStep {
    /// The number of the entry.
    pub entry: usize,
    /// The number of the term.
    pub term: usize,
    /// The number of the instance, which is added.
    pub formula: usize,
    /// The generation of the instance.
    pub generation: usize,
}

// A universal entry.
#[derive(Clone, Copy)]
pub(crate) struct QuantifiedEntry {
    // The number of the entry, and of its formula.
    pub(crate) entry: usize,
    pub(crate) formula: usize,
    pub(crate) generation: usize,
    pub(crate) universal: Universal,
    // Whether its body is quantifier-free.
    pub(crate) is_free: bool,
}

// The generation of an instance of an entry with this generation for the term, if there may be one.
fn next_generation(
    pool: &Pool,
    branch: &PoolBranch,
    generation: usize,
    term: usize,
) -> Option<usize>
    requires over { IsOver pool.now branch.now }
    requires term { IsTermNumber pool.now term }
    ensures { MatchOption result (HasNoGeneration (branch_in pool.now branch.now) generation (term_at pool.now term)) (IsNextGeneration (branch_in pool.now branch.now) generation (term_at pool.now term)) }
{
    if pool.depth(term) > MOST_DEPTH {
        return None;
    }
    let Some(older) = branch.generation(pool, term) else {
        return None;
    };
    let before = generation.max(older);
    if before < MOST_GENERATIONS {
        return Some(before + 1);
    }
    None
}

// The instance for a matching term, if it is due.
fn instance_for(
    alloc: Global,
    pool: &mut Pool,
    branch: &PoolBranch,
    quantified: QuantifiedEntry,
    term: usize,
) -> Result<Option<InstanceStep>, NoMemory>
    requires over { IsOver pool.old branch.now }
    requires quantified { IsQuantifiedEntry pool.old (branch_in pool.old branch.now) quantified }
    requires term { IsTermNumber pool.old term }
    requires matched { IsMatched (branch_in pool.old branch.now) (term_at pool.old term) (formula_at pool.old quantified.formula) }
    ensures extends { Extends pool.old pool.new }
    ensures due { IfOk result (λ found. MatchOption found (NoInstanceFor (branch_in pool.old branch.now) quantified.entry (term_at pool.old term)) (IsInstanceAt pool.new (branch_in pool.old branch.now) quantified.entry)) }
{
    let Some(generation) = next_generation(pool, branch, quantified.generation, term) else {
        return Ok(None);
    };
    let universal = quantified.universal;
    let formula = said_of(alloc, pool, universal, quantified.is_free, term)?;
    if pool.depth(formula) > MOST_DEPTH {
        return Ok(None);
    }
    let said = is_said(
        alloc,
        pool,
        branch,
        universal,
        quantified.is_free,
        term,
        formula,
    )?;
    if said {
        return Ok(None);
    }
    Ok(Some(InstanceStep {
        entry: quantified.entry,
        term,
        formula,
        generation,
    }))
}

// The instance for the first of the terms for which one is due.
#[tactic(auto, using(term_pool::proofs::GrowthLemmas::extends_then))]
fn instance_among(
    alloc: Global,
    pool: &mut Pool,
    branch: &PoolBranch,
    quantified: QuantifiedEntry,
    terms: &[usize],
) -> Result<Option<InstanceStep>, NoMemory>
    requires over { IsOver pool.old branch.now }
    requires quantified { IsQuantifiedEntry pool.old (branch_in pool.old branch.now) quantified }
    requires terms { AreMatches pool.old (branch_in pool.old branch.now) (formula_at pool.old quantified.formula) terms.now }
    ensures extends { Extends pool.old pool.new }
    ensures due { IfOk result (λ found. MatchOption found (NoInstanceAt (branch_in pool.old branch.now) quantified.entry) (IsInstanceAt pool.new (branch_in pool.old branch.now) quantified.entry)) }
{
    for term in terms {
        let found = instance_for(alloc, pool, branch, quantified, *term)?;
        if let Some(step) = found {
            return Ok(Some(step));
        }
    }
    Ok(None)
}

// The entry with this number, if an instance of it may be due.
fn quantified_at(
    pool: &Pool,
    branch: &PoolBranch,
    quantifiers: &mut QuantifierFree,
    i: usize,
) -> Result<Option<QuantifiedEntry>, NoMemory>
    requires over { IsOver pool.now branch.now }
    requires free { AreFree pool.now quantifiers.old }
    ensures free { OnOk result (AreFree pool.now quantifiers.new) }
    ensures is { IfOk result (λ found. MatchOption found (NoInstanceAt (branch_in pool.now branch.now) i) (IsQuantifiedAt pool.now (branch_in pool.now branch.now) i)) }
{
    let Some(entry) = branch.entry(i) else {
        return Ok(None);
    };
    if entry.generation >= MOST_GENERATIONS {
        return Ok(None);
    }
    let Some(universal) = quantified(pool, entry.formula) else {
        return Ok(None);
    };
    let is_free = quantifiers.is_free(pool, universal.body)?;
    Ok(Some(QuantifiedEntry {
        entry: i,
        formula: entry.formula,
        generation: entry.generation,
        universal,
        is_free,
    }))
}

// The due instance of the entry with this number.
#[tactic(auto, using(term_pool::proofs::GrowthLemmas::extends_then))]
fn instance_at(
    alloc: Global,
    pool: &mut Pool,
    branch: &PoolBranch,
    index: &mut HeadIndex,
    quantifiers: &mut QuantifierFree,
    i: usize,
) -> Result<Option<InstanceStep>, NoMemory>
    requires over { IsOver pool.old branch.now }
    requires index { IsIndex pool.old index.old }
    requires free { AreFree pool.old quantifiers.old }
    ensures extends { Extends pool.old pool.new }
    ensures index { OnOk result (IsIndex pool.new index.new) }
    ensures free { OnOk result (AreFree pool.new quantifiers.new) }
    ensures due { IfOk result (λ found. MatchOption found (NoInstanceAt (branch_in pool.old branch.now) i) (IsInstanceAt pool.new (branch_in pool.old branch.now) i)) }
{
    let found = quantified_at(pool, branch, quantifiers, i)?;
    let Some(quantified) = found else {
        return Ok(None);
    };
    index.grow(pool)?;
    let terms = matches(alloc, pool, branch, index, quantified.formula)?;
    instance_among(alloc, pool, branch, quantified, terms.as_slice())
}

/// Finds a due instance of the first entry that has one, for a term that matches the entry; none if no instance is
/// due. `index` and `quantifiers` may be those of a prefix of the pool; they are extended.
#[tactic(auto, using(term_pool::proofs::GrowthLemmas::extends_then))]
pub fn next_instance(
    alloc: Global,
    pool: &mut Pool,
    branch: &PoolBranch,
    index: &mut HeadIndex,
    quantifiers: &mut QuantifierFree,
) -> Result<Option<InstanceStep>, NoMemory>
    requires over { IsOver pool.old branch.now }
    requires index { IsIndex pool.old index.old }
    requires free { AreFree pool.old quantifiers.old }
    ensures extends { Extends pool.old pool.new }
    ensures index { OnOk result (IsIndex pool.new index.new) }
    ensures free { OnOk result (AreFree pool.new quantifiers.new) }
    ensures due { IfOk result (λ found. MatchOption found (NoInstance (branch_in pool.new branch.now)) (IsInstanceStep pool.new (branch_in pool.new branch.now))) }
{
    for i in 0..branch.len() {
        let found = instance_at(alloc, pool, branch, index, quantifiers, i)?;
        if let Some(step) = found {
            return Ok(Some(step));
        }
    }
    Ok(None)
}

//! Applicable (due) instances of axioms.

ghost use Rattle.std.specs.Prelude.{◌≡◌, MatchOption};
ghost use Rattle.certificates.specs.Due.{AreGenerations};
ghost use Rattle.tableau.specs.PoolBranches.{branch_in, IsOver};
ghost use Rattle.axiom_instances.specs.Lists.{AreTerms};
ghost use Rattle.axiom_strategy.specs.Due.{NoneDue, IsDueStep};
ghost use Rattle.axiom_strategy.specs.Instances.{is_of_ranges, is_wanted, terms_in, triggered_in, IsInstance, AreInstances, HaveNoGenerations, IsNotDue, IsDueNow, IsOnly, IsListed};

use axiom_instances::triggered::{TriggeredAxiom, TriggeredTerms};
use axioms::axiom::{Axiom, Equivalence, Fact};
use tableau::branch::PoolBranch;
use term_pool::pool::{MOST_DEPTH, Pool};

/// Which axioms a search wants.
#[derive(Clone, Copy)]
pub enum WantedAxioms {
    /// The range axioms, which state which terms are whole numbers of a range. A search applies them before all others.
    Ranges,
    All,
}

/// A due instance of an axiom.
#[derive(Clone, Copy)]
pub struct AxiomStep {
    pub name: Axiom,
    /// The number of the formula to add.
    pub formula: usize,
    /// How many instances of quantified formulas led to it.
    pub generation: usize,
}

// Decides whether an axiom is a range axiom.
fn is_of_ranges(name: Axiom) -> bool
    ensures { result ≡ is_of_ranges name }
{
    match name {
        Axiom::Exactly(Equivalence::Range) => true,
        Axiom::Plain(Fact::Whole) => true,
        _ => false,
    }
}

fn is_wanted(wanted: WantedAxioms, name: Axiom) -> bool
    ensures { result ≡ is_wanted wanted name }
{
    match wanted {
        WantedAxioms::Ranges => is_of_ranges(name),
        WantedAxioms::All => true,
    }
}

// The greater of the generations of two terms.
fn greatest(pool: &Pool, branch: &PoolBranch, left: usize, right: usize) -> Option<usize>
    requires over { IsOver pool.now branch.now }
    requires terms { AreTerms pool.now (TriggeredTerms.Two left right) (terms_in pool.now (TriggeredTerms.Two left right)) }
    ensures { MatchOption result (HaveNoGenerations (branch_in pool.now branch.now) (terms_in pool.now (TriggeredTerms.Two left right))) (AreGenerations (branch_in pool.now branch.now) (terms_in pool.now (TriggeredTerms.Two left right))) }
{
    let Some(one) = branch.generation(pool, left) else {
        return None;
    };
    let Some(other) = branch.generation(pool, right) else {
        return None;
    };
    Some(one.max(other))
}

// The greatest of the generations of the terms; 0 if there are no terms.
fn generation(pool: &Pool, branch: &PoolBranch, terms: TriggeredTerms) -> Option<usize>
    requires over { IsOver pool.now branch.now }
    requires terms { AreTerms pool.now terms (terms_in pool.now terms) }
    ensures { MatchOption result (HaveNoGenerations (branch_in pool.now branch.now) (terms_in pool.now terms)) (AreGenerations (branch_in pool.now branch.now) (terms_in pool.now terms)) }
{
    match terms {
        TriggeredTerms::None => Some(0),
        TriggeredTerms::One(term) => branch.generation(pool, term),
        TriggeredTerms::Two(left, right) => greatest(pool, branch, left, right),
    }
}

// The generation of the instance, if it is new on the branch and shallow.
fn due_generation(pool: &Pool, branch: &PoolBranch, triggered: TriggeredAxiom) -> Option<usize>
    requires over { IsOver pool.now branch.now }
    requires triggered { IsInstance pool.now triggered }
    ensures { MatchOption result (IsNotDue (branch_in pool.now branch.now) (triggered_in pool.now triggered)) (IsDueNow (branch_in pool.now branch.now) (triggered_in pool.now triggered)) }
{
    if branch.stands(pool, triggered.formula) {
        return None;
    }
    if pool.depth(triggered.formula) > MOST_DEPTH {
        return None;
    }
    generation(pool, branch, triggered.terms)
}

/// The step for an instance, if it is wanted and due.
pub(crate) fn step_of(
    pool: &Pool,
    branch: &PoolBranch,
    wanted: WantedAxioms,
    triggered: TriggeredAxiom,
) -> Option<AxiomStep>
    requires over { IsOver pool.now branch.now }
    requires triggered { IsInstance pool.now triggered }
    ensures { MatchOption result (NoneDue (branch_in pool.now branch.now) wanted (IsOnly (triggered_in pool.now triggered))) (IsDueStep pool.now (branch_in pool.now branch.now) wanted (IsOnly (triggered_in pool.now triggered))) }
{
    if !is_wanted(wanted, triggered.name) {
        return None;
    }
    let Some(generation) = due_generation(pool, branch, triggered) else {
        return None;
    };
    Some(AxiomStep {
        name: triggered.name,
        formula: triggered.formula,
        generation,
    })
}

/// The first of these instances that is wanted and due; `None` if there is none.
pub(crate) fn first_due(
    pool: &Pool,
    branch: &PoolBranch,
    wanted: WantedAxioms,
    instances: &[TriggeredAxiom],
) -> Option<AxiomStep>
    requires over { IsOver pool.now branch.now }
    requires instances { AreInstances pool.now instances.now }
    ensures { MatchOption result (NoneDue (branch_in pool.now branch.now) wanted (IsListed pool.now instances.now)) (IsDueStep pool.now (branch_in pool.now branch.now) wanted (IsListed pool.now instances.now)) }
{
    for triggered in instances {
        if let Some(step) = step_of(pool, branch, wanted, *triggered) {
            return Some(step);
        }
    }
    None
}

//! What the steps of an explanation add: by number, and as trees.

ghost use Rattle.std.specs.Prelude.{◌≡◌, ◌↔◌, ◌++◌, map, IsTrue, IfOk, Contains};
ghost use Rattle.certificates.specs.BranchesBranch.{formulas};
ghost use Rattle.tableau.specs.PoolBranches.{branch_in, IsFormulaNumber, IsOver};
ghost use Rattle.tableau.specs.Numbers.{formula_at, AreFormulas};
ghost use Rattle.step_checks.specs.Links.{number_of, formula_added, IsNamed, AreNamed, IsShallowStep, AreShallow};

use base::memory::NoMemory;
use explanations::chain::ChainStep;
use fol::formula::Formula;
use std::alloc::Global;
use tableau::branch::PoolBranch;
use tableau::rules::stands::is_shallow;
use term_pool::pool::Pool;
use term_pool::reading::read_formula;

// The number of the formula that a step adds.
pub(crate) fn number_of(step: ChainStep) -> usize
    ensures { result ≡ number_of step }
{
    match step {
        ChainStep::Itself(formula) => formula,
        ChainStep::Rewritten(rewriting) => rewriting.formula,
    }
}

// Decides whether the formulas in a step are no deeper than a step may use.
fn is_shallow_step(pool: &Pool, step: ChainStep) -> bool
    requires { IsNamed pool.now step }
    ensures { IsTrue result ↔ IsShallowStep pool.now step }
{
    match step {
        ChainStep::Itself(formula) => is_shallow(pool, formula),
        ChainStep::Rewritten(rewriting) => {
            let pattern = is_shallow(pool, rewriting.pattern);
            if !pattern {
                return false;
            }
            is_shallow(pool, rewriting.formula)
        }
    }
}

// The same for each step.
pub(crate) fn are_shallow(pool: &Pool, steps: &[ChainStep]) -> bool
    requires { AreNamed pool.now steps.now }
    ensures { IsTrue result ↔ AreShallow pool.now steps.now }
{
    for step in steps {
        let shallow = is_shallow_step(pool, *step);
        if !shallow {
            return false;
        }
    }
    true
}

// The formulas that the steps add.
pub(crate) fn read_added(
    alloc: Global,
    pool: &Pool,
    steps: &[ChainStep],
) -> Result<Vec<Formula>, NoMemory>
    ensures { IfOk result (λ added. added.items ≡ map (formula_added pool.now) steps.now) }
{
    let mut added = Vec::new(alloc);
    for step in steps {
        added.push(read_formula(alloc, pool, number_of(*step))?)?;
    }
    Ok(added)
}

// Decides whether the number is one of these.
fn is_among(numbers: &[usize], number: usize) -> bool
    ensures { IsTrue result ↔ Contains numbers.now number }
{
    for other in numbers {
        if *other == number {
            return true;
        }
    }
    false
}

// Decides whether the formula is that of an entry, or one of those added.
pub(crate) fn stands_before(
    pool: &Pool,
    branch: &PoolBranch,
    added: &[usize],
    formula: usize,
) -> bool
    requires over { IsOver pool.now branch.now }
    requires added { AreFormulas pool.now added.now }
    requires formula { IsFormulaNumber pool.now formula }
    ensures { IsTrue result ↔ Contains (formulas (branch_in pool.now branch.now) ++ map (formula_at pool.now) added.now) (formula_at pool.now formula) }
{
    pool.one_number();
    if branch.stands(pool, formula) {
        return true;
    }
    is_among(added, formula)
}

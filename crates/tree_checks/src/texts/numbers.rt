//! Checks whether the numbers in applications are those of formulas and terms.

ghost use Rattle.std.specs.Prelude.{All, IsTrue};
ghost use Rattle.tableau.specs.PoolBranches.{IsFormulaNumber, IsTermNumber};
ghost use Rattle.tableau.specs.Numbers.{AreFormulas};
ghost use Rattle.search.specs.Applications.{terms_of};
ghost use Rattle.step_checks.specs.Links.{IsNamed, AreNamed};
ghost use Rattle.tree_checks.specs.Steps.{HasNumbers, AreNumbered};
ghost use Rattle.tree_checks.specs.Partial.{IsChainNumbered};
ghost use Rattle.tree_checks.specs.Numbers.{IsApplicationNumbered};

use crate::grown::steps::GrownStep;
use crate::partial::applications::GivenChain;
use explanations::chain::ChainStep;
use search::trees::application::{Extension, PoolApplication, Reason};
use term_pool::pool::Pool;

fn is_formula(pool: &Pool, number: usize) -> bool
    ensures { IsTrue result → IsFormulaNumber pool.now number }
{
    pool.is_formula(number)
}

fn is_term(pool: &Pool, number: usize) -> bool
    ensures { IsTrue result → IsTermNumber pool.now number }
{
    pool.is_term(number)
}

fn are_formulas(pool: &Pool, numbers: &[usize]) -> bool
    ensures { IsTrue result → AreFormulas pool.now numbers.now }
{
    for number in numbers {
        if !is_formula(pool, *number) {
            return false;
        }
    }
    true
}

// Decides whether the terms in the reason are terms.
fn names_terms(pool: &Pool, reason: Reason) -> bool
    ensures { IsTrue result → All (IsTermNumber pool.now) (terms_of reason) }
{
    match reason {
        Reason::Instance(_, term) | Reason::Bound(_, term, _) => is_term(pool, term),
        Reason::Cut(left, right) => is_term(pool, left) && is_term(pool, right),
        Reason::Parts(_) | Reason::Name(_, _) | Reason::Axiom(_) | Reason::Split(_) => true,
    }
}

fn has_numbers(pool: &Pool, extension: &Extension) -> bool
    ensures { IsTrue result → HasNumbers pool.now extension.now }
{
    are_formulas(pool, extension.formulas.as_slice()) && names_terms(pool, extension.reason)
}

fn is_named(pool: &Pool, step: ChainStep) -> bool
    ensures { IsTrue result → IsNamed pool.now step }
{
    match step {
        ChainStep::Itself(formula) => is_formula(pool, formula),
        ChainStep::Rewritten(rewriting) => {
            is_formula(pool, rewriting.pattern) && is_formula(pool, rewriting.formula)
        }
    }
}

fn are_named(pool: &Pool, steps: &[ChainStep]) -> bool
    ensures { IsTrue result → AreNamed pool.now steps.now }
{
    for step in steps {
        if !is_named(pool, *step) {
            return false;
        }
    }
    true
}

fn is_application_numbered(pool: &Pool, application: &PoolApplication) -> bool
    ensures { IsTrue result → IsApplicationNumbered pool.now application.now }
{
    match application {
        PoolApplication::Grown(extension) => has_numbers(pool, extension),
        PoolApplication::Closed(closing) => are_named(pool, closing.chain.as_slice()),
    }
}

/// Decides whether the numbers in the applications are those of formulas and terms.
pub(crate) fn is_text_numbered(pool: &Pool, text: &[PoolApplication]) -> bool
    ensures { IsTrue result → All (IsApplicationNumbered pool.now) text.now }
{
    for application in text {
        if !is_application_numbered(pool, application) {
            return false;
        }
    }
    true
}

/// Decides whether the numbers in the explanation, if there is one, are those of formulas.
pub(crate) fn is_chain_numbered(pool: &Pool, chain: &Option<GivenChain>) -> bool
    ensures { IsTrue result → IsChainNumbered pool.now chain.now }
{
    match chain {
        Some(given) => are_named(pool, given.closing.chain.as_slice()),
        None => true,
    }
}

/// Decides whether the numbers in the steps are those of formulas and terms.
pub(crate) fn are_steps_numbered(pool: &Pool, steps: &[GrownStep]) -> bool
    ensures { IsTrue result → AreNumbered pool.now steps.now }
{
    for step in steps {
        if !has_numbers(pool, &step.extension) {
            return false;
        }
    }
    true
}

//! Checks whether a trace is a partial tableau, as far as its grounds are found.

ghost use Rattle.std.specs.Prelude.{◌≡◌, ℕ, ◌∷◌, [], All, IsTrue, OnOk, IfOk};
ghost use Rattle.fol.specs.FormulaData.{FormulaData, NotFormula};
ghost use Rattle.term_pool.specs.Pools.{Extends};
ghost use Rattle.tableau.specs.PoolBranches.{IsFormulaNumber};
ghost use Rattle.tableau.specs.Numbers.{formula_at};
ghost use Rattle.axiom_instances.specs.StructRows.{HasFewFields};
ghost use Rattle.tree_checks.specs.Steps.{first_branch};
ghost use Rattle.tree_checks.specs.Partial.{IsChainNumbered};
ghost use Rattle.tree_checks.specs.Walks.{opened, IsWalk};
ghost use Rattle.tree_checks.specs.Numbers.{IsApplicationNumbered};
ghost use Rattle.tree_checks.specs.Texts.{steps_of, IsTakenFor, IsPartialText};

use crate::partial::applications::GivenChain;
use crate::partial::ending::ends;
use crate::partial::stepping::take;
use crate::partial::walk::{Walk, begin};
use crate::texts::grounds::with_grounds;
use crate::texts::numbers::{is_chain_numbered, is_text_numbered};
use base::memory::NoMemory;
use fol::shapes::Shapes;
use search::trees::application::PoolApplication;
use std::alloc::Global;
use term_pool::pool::Pool;

// The number of steps of the application: a closing is none, but each step of its explanation is one.
fn steps_of(application: &PoolApplication) -> u64
    ensures { result ≡ steps_of application.now }
{
    match application {
        PoolApplication::Grown(_) => 1,
        PoolApplication::Closed(closing) => closing.chain.len() as u64,
    }
}

// Continues with the branches that the application leaves open; returns true only if it is due.
fn take_turn(
    alloc: Global,
    pool: &mut Pool,
    shapes: &Shapes,
    walk: &mut Walk,
    application: PoolApplication,
) -> Result<bool, NoMemory>
    requires few { HasFewFields shapes.now }
    requires walk { IsWalk pool.old walk.old }
    requires numbers { IsApplicationNumbered pool.old application }
    ensures extends { Extends pool.old pool.new }
    ensures walk { OnOk result (IsWalk pool.new walk.new) }
    ensures taken { IfOk result (λ known. IsTrue known → IsTakenFor shapes.now pool.old (opened pool.old walk.old) application (opened pool.new walk.new)) }
{
    let Some(given) = with_grounds(alloc, pool, shapes, &walk.branch, application)? else {
        return Ok(false);
    };
    pool.one_number();
    let known = take(alloc, pool, shapes, walk, &given)?;
    Ok(known)
}

// Returns true only if the applications are due, one after another, and the trace may end after them, with this many
// steps.
fn is_read(
    alloc: Global,
    pool: &mut Pool,
    shapes: &Shapes,
    walk: &mut Walk,
    text: Vec<PoolApplication>,
    chain: &Option<GivenChain>,
    budget: u64,
) -> Result<bool, NoMemory>
    requires few { HasFewFields shapes.now }
    requires walk { IsWalk pool.old walk.old }
    requires numbers { All (IsApplicationNumbered pool.old) text.items }
    requires named { IsChainNumbered pool.old chain.now }
    ensures extends { Extends pool.old pool.new }
    ensures partial { (n : ℕ) (p : FormulaData) → IsFormulaNumber pool.old n → opened pool.old walk.old ≡ first_branch pool.old n ∷ [] → formula_at pool.old n ≡ NotFormula p → IfOk result (λ known. IsTrue known → IsPartialText shapes.now pool.old p text.items chain.now budget) }
{
    let mut left = budget;
    for application in text {
        let steps = steps_of(&application);
        if steps > left {
            return Ok(false);
        }
        left -= steps;
        let known = take_turn(alloc, pool, shapes, walk, application)?;
        if !known {
            return Ok(false);
        }
    }
    let ended = ends(alloc, pool, walk, chain, left)?;
    Ok(ended)
}

/// Returns true only if the trace of a search, starting with the branch that has only the negation of a formula, is a
/// partial tableau of the formula with `budget` steps. The trace may end within the explanation of a closing of the
/// current branch. Each struct shape has fewer than 2^32 fields.
///
/// The grounds of the applications are computed anew: for a late application the values of the rows, for a bound an
/// elimination of the rows with the values chosen after it. If an elimination finds none, the result is false.
///
/// # Errors
///
/// Only if memory runs out.
pub fn is_partial_text(
    alloc: Global,
    pool: &mut Pool,
    shapes: &Shapes,
    denial: usize,
    text: Vec<PoolApplication>,
    chain: &Option<GivenChain>,
    budget: u64,
) -> Result<bool, NoMemory>
    requires few { HasFewFields shapes.now }
    requires denial { IsFormulaNumber pool.old denial }
    ensures extends { Extends pool.old pool.new }
    ensures partial { (p : FormulaData) → formula_at pool.old denial ≡ NotFormula p → IfOk result (λ known. IsTrue known → IsPartialText shapes.now pool.old p text.items chain.now budget) }
{
    if !is_text_numbered(pool, text.as_slice()) || !is_chain_numbered(pool, chain) {
        return Ok(false);
    }
    let mut walk = begin(alloc, pool, denial)?;
    is_read(alloc, pool, shapes, &mut walk, text, chain, budget)
}

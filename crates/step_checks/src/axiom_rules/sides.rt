//! The two numbers in an instance of the trichotomy axiom.

ghost use Rattle.std.specs.Prelude.{◌≡◌, ◌<◌, length, MatchOption};
ghost use Rattle.term_pool.specs.Items.{formulas_in};
ghost use Rattle.term_pool.specs.Pools.{item_at};
ghost use Rattle.tableau.specs.PoolBranches.{IsFormulaNumber};
ghost use Rattle.tableau.specs.Numbers.{formula_at};
ghost use Rattle.step_checks.specs.Sides.{IsNotJoined, IsJoinedOf, list_in, HasFewer, AreFirstTwo, HasNoSides, AreSides};

use axiom_strategy::typings::typing_of;
use tableau::rules::compounds::{Compound, compound_at};
use term_pool::pool::Pool;
use term_pool::reading::first_formula;

fn list_in(compound: Compound) -> Option<usize>
    ensures { result ≡ list_in compound }
{
    match compound {
        Compound::Join(_, list) => Some(list),
        _ => None,
    }
}

// The number of the list of formulas that a formula joins; `None` if it joins none.
fn list_of(pool: &Pool, formula: usize) -> Option<usize>
    requires { IsFormulaNumber pool.now formula }
    ensures { MatchOption result (IsNotJoined (formula_at pool.now formula)) (IsJoinedOf pool.now (formula_at pool.now formula)) }
{
    match compound_at(pool, formula) {
        Some(compound) => list_in(compound),
        None => None,
    }
}

// The numbers of the first two formulas of a list; `None` if it has fewer.
fn first_two(pool: &Pool, list: usize) -> Option<(usize, usize)>
    ensures { MatchOption result (HasFewer (formulas_in (item_at pool.now list))) (AreFirstTwo pool.now (formulas_in (item_at pool.now list))) }
{
    let Some((first, rest)) = first_formula(pool, list) else {
        return None;
    };
    let Some(next) = first_formula(pool, rest) else {
        return None;
    };
    Some((first, next.0))
}

/// The numbers of the two terms if the formula is an instance of the axiom. For other formulas the result may be two
/// numbers as well.
pub(crate) fn number_sides(pool: &Pool, formula: usize) -> Option<(usize, usize)>
    requires { IsFormulaNumber pool.now formula }
    ensures { MatchOption result (HasNoSides (formula_at pool.now formula)) (AreSides pool.now (formula_at pool.now formula)) }
{
    let Some(list) = list_of(pool, formula) else {
        return None;
    };
    let Some((first, second)) = first_two(pool, list) else {
        return None;
    };
    let Some(left) = typing_of(pool, first) else {
        return None;
    };
    let Some(right) = typing_of(pool, second) else {
        return None;
    };
    Some((left.term, right.term))
}

//! Equations that entries negate.

ghost use Rattle.std.specs.Prelude.{◌≡◌, IfOk, MatchOption};
ghost use Rattle.fol.specs.FormulaData.{TermData, EqFormula, NotFormula};
ghost use Rattle.tableau.specs.PoolBranches.{branch_in, IsFormulaNumber, IsOver};
ghost use Rattle.tableau.specs.Numbers.{formula_at};
ghost use Rattle.tableau.specs.Terms.{AreClassesOf};
ghost use Rattle.axiom_strategy.specs.Denials.{AreSidesDenied, DeniesSides, DeniesNone, AreDenied};

use base::keyed_lists::pairs::Pairs;
use base::memory::NoMemory;
use congruence_closure::branch_classes::BranchClasses;
use std::alloc::Global;
use tableau::branch::PoolBranch;
use term_pool::pool::Pool;

// The sides of the equation that a formula negates.
fn sides_denied(pool: &Pool, formula: usize) -> Option<(usize, usize)>
    requires { IsFormulaNumber pool.now formula }
    ensures { MatchOption result ((t u : TermData) → formula_at pool.now formula ≡ NotFormula (EqFormula t u) → ⊥) (AreSidesDenied pool.now formula) }
{
    match pool.denied(formula) {
        Some(inner) => pool.sides(inner),
        None => None,
    }
}

/// The sides of the equation that the entry with this number negates; `None` if it negates no equation.
pub fn sides_at(pool: &Pool, branch: &PoolBranch, i: usize) -> Option<(usize, usize)>
    requires { IsOver pool.now branch.now }
    ensures { MatchOption result (DeniesNone (branch_in pool.now branch.now) i) (DeniesSides pool.now (branch_in pool.now branch.now) i) }
{
    match branch.entry(i) {
        Some(entry) => sides_denied(pool, entry.formula),
        None => None,
    }
}

/// The pairs of classes of the sides of the equations that entries negate. `NoMemory` if memory runs out.
pub(crate) fn denied_classes(
    alloc: Global,
    pool: &Pool,
    branch: &PoolBranch,
    classes: &BranchClasses,
) -> Result<Pairs, NoMemory>
    requires over { IsOver pool.now branch.now }
    requires classes { AreClassesOf pool.now branch.now classes.now }
    ensures { IfOk result (λ denied. AreDenied pool.now (branch_in pool.now branch.now) classes.now denied) }
{
    pool.one_number();
    let mut denied = Pairs::new(alloc);
    for i in 0..branch.len() {
        let Some((left, right)) = sides_at(pool, branch, i) else {
            continue;
        };
        let one = classes.class(left);
        let other = classes.class(right);
        denied.add(one, other)?;
    }
    Ok(denied)
}

//! Delta rule: Skolem names for the variables of existential formulas.

ghost use Rattle.std.specs.Prelude.{◌↔◌, IsTrue, OnOk, IfOk};
ghost use Rattle.certificates.specs.Due.{NameDue};
ghost use Rattle.tableau.specs.PoolBranches.{branch_in, IsFormulaNumber, IsOver};
ghost use Rattle.tableau.specs.Numbers.{formula_at};
ghost use Rattle.tableau.specs.Variables.{AreAbove};

use crate::applications::said::is_said_of;
use crate::applications::truths::{are_all, is_false, is_same};
use base::memory::NoMemory;
use fol::formula::Term;
use fol::operators::Quantifier;
use std::alloc::Global;
use tableau::branch::PoolBranch;
use tableau::names::variables::Variables;
use tableau::rules::stands::is_shallow;
use term_pool::pool::Pool;
use term_pool::reading::read_formula;

/// Decides whether this variable is due as a Skolem name at the entry with this number: it is the least variable above
/// all those of the branch, the entry has no Skolem name yet, and the formula is the entry's body for the name, up to
/// renaming of bound variables, and no deeper than a step may add. `variables` is right for the branch.
///
/// # Errors
///
/// Only if memory runs out.
pub fn is_name_due(
    alloc: Global,
    pool: &Pool,
    branch: &PoolBranch,
    variables: &mut Variables,
    entry: usize,
    variable: u32,
    formula: usize,
) -> Result<bool, NoMemory>
    requires over { IsOver pool.now branch.now }
    requires above { AreAbove pool.now branch.now.entries variables.old }
    requires formula { IsFormulaNumber pool.now formula }
    ensures above { OnOk result (AreAbove pool.now branch.now.entries variables.new) }
    ensures exact { IfOk result (λ known. IsTrue known ↔ NameDue (branch_in pool.now branch.now) entry variable (formula_at pool.now formula)) }
{
    let least = variables.above_all(pool, branch)?;
    let Some(at) = branch.entry(entry) else {
        return Ok(false);
    };
    let named = variables.is_named(entry);
    let whole = read_formula(alloc, pool, at.formula)?;
    let name = Term::variable(variable);
    let is_body = is_said_of(alloc, pool, Quantifier::Exists, &whole, &name, formula)?;
    let is_least = is_same(u64::from(variable), least);
    let is_unnamed = is_false(named);
    let shallow = is_shallow(pool, formula);
    Ok(are_all(is_least, is_unnamed, is_body, shallow))
}

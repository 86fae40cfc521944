//! The use of the values of an elimination: the branch is open, or a bound is due.

ghost use Rattle.std.specs.Prelude.{◌≡◌, ◌∷◌, [], List, IfOk};
ghost use Rattle.fol.specs.FormulaData.{LeFormula};
ghost use Rattle.fol.specs.declared.shapes.Shape.{Shape};
ghost use Rattle.term_pool.specs.Pools.{Extends};
ghost use Rattle.term_pool.specs.declared.node.Node.{Node};
ghost use Rattle.certificates.specs.Due.{IsSaturated};
ghost use Rattle.certificates.specs.ProofTraces.{generation_at};
ghost use Rattle.tableau.specs.PoolBranches.{branch_in, IsOver, IsTermNumber};
ghost use Rattle.tableau.specs.Numbers.{IsNumberOf};
ghost use Rattle.row_reasoning.specs.Numbers.{term_at};
ghost use Rattle.search.specs.Decisions.{IsLevel, ShowsLeaf};
ghost use Rattle.closing_rules.specs.Eliminations.{AreNamedRows, AreValues};
ghost use Rattle.closing_rules.specs.Bounds.{IsNumeral, IsBoundApplication};

use base::memory::NoMemory;
use fol::operators::{Comparison, Constant};
use indexmap::IndexSet;
use linear_arith::rows::Fractions;
use row_reasoning::rows::BranchRows;
use row_reasoning::values::bounds::{Bound, next_bound};
use search::deciders::LeafAnswer;
use search::trees::application::{Extension, Reason};
use search::values::OpenValues;
use std::alloc::Global;
use tableau::branch::PoolBranch;
use term_pool::node::{Leaf, Node, Two};
use term_pool::pool::Pool;

// The number of a numeral.
fn numeral(pool: &mut Pool, value: i128) -> Result<usize, NoMemory>
    ensures extends { Extends pool.old pool.new }
    ensures is { IfOk result (IsNumeral pool.new value) }
{
    pool.insert(Node::Leaf(Leaf::Constant(Constant::Num(value))))
}

// The number of the formula stating that one term is at most another one.
fn at_most(pool: &mut Pool, lesser: usize, greater: usize) -> Result<usize, NoMemory>
    requires lesser { IsTermNumber pool.old lesser }
    requires greater { IsTermNumber pool.old greater }
    ensures extends { Extends pool.old pool.new }
    ensures is { IfOk result (IsNumberOf pool.new (LeFormula (term_at pool.old lesser) (term_at pool.old greater))) }
{
    pool.insert(Node::Two(Two::Compare(Comparison::Le), lesser, greater))
}

// A list of two formulas.
fn pair(alloc: Global, first: usize, second: usize) -> Result<Vec<usize>, NoMemory>
    ensures { IfOk result (λ formulas. formulas.items ≡ first ∷ second ∷ []) }
{
    let mut formulas = Vec::new(alloc);
    formulas.push(first)?;
    formulas.push(second)?;
    Ok(formulas)
}

// The generation of the entry with this number; 0 if there is no such entry.
fn generation_of(branch: &PoolBranch, entry: usize) -> usize
    ensures { (ns : List Node) → result ≡ generation_at (branch_in ns branch.now) entry }
{
    match branch.entry(entry) {
        Some(entry) => entry.generation,
        None => 0,
    }
}

// The application that splits the branch at a bound.
fn bound_application(
    alloc: Global,
    pool: &mut Pool,
    branch: &PoolBranch,
    bound: Bound,
) -> Result<Extension, NoMemory>
    requires { IsTermNumber pool.old bound.term }
    ensures extends { Extends pool.old pool.new }
    ensures is { IfOk result (IsBoundApplication pool.old pool.new (branch_in pool.old branch.now) bound) }
{
    let below = numeral(pool, bound.below)?;
    let above = numeral(pool, bound.above)?;
    let first = at_most(pool, bound.term, below)?;
    let second = at_most(pool, above, bound.term)?;
    Ok(Extension {
        reason: Reason::Bound(bound.entry, bound.term, bound.below),
        generation: generation_of(branch, bound.entry),
        formulas: pair(alloc, first, second)?,
    })
}

// The values, with the representatives of their classes.
fn open_values(
    alloc: Global,
    names: &[usize],
    classes: &IndexSet<usize>,
    values: Fractions,
) -> Result<OpenValues, NoMemory>
    ensures names { IfOk result (λ v. v.names.items ≡ names.now) }
    ensures classes { IfOk result (λ v. v.classes.items ≡ classes.now.keys) }
    ensures values { IfOk result (λ v. v.values ≡ values) }
{
    Ok(OpenValues {
        names: Vec::from_slice(alloc, names)?,
        classes: Vec::from_slice(alloc, classes.as_slice())?,
        values,
    })
}

/// Decides, for a branch on which nothing else is due and these values of its rows, whether it is open or a bound is
/// due. `NoMemory` if memory runs out.
pub fn open_or_bound(
    alloc: Global,
    pool: &mut Pool,
    branch: &PoolBranch,
    names: &[usize],
    rows: &BranchRows,
    values: Fractions,
) -> Result<LeafAnswer, NoMemory>
    requires over { IsOver pool.old branch.now }
    requires level { IsLevel (branch_in pool.old branch.now) }
    requires rows { AreNamedRows pool.old (branch_in pool.old branch.now) names.now rows.now }
    requires values { AreValues rows.now.rows values }
    ensures extends { Extends pool.old pool.new }
    ensures shown { (shapes : List Shape) → IsSaturated shapes (branch_in pool.old branch.now) → IfOk result (ShowsLeaf shapes pool.new (branch_in pool.old branch.now)) }
{
    match next_bound(alloc, pool, branch, names, &rows.classes, values.as_slice())? {
        Some(bound) => Ok(LeafAnswer::Bound(bound_application(alloc, pool, branch, bound)?)),
        None => Ok(LeafAnswer::Open(open_values(alloc, names, &rows.classes, values)?)),
    }
}

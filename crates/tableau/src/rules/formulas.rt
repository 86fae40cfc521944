//! Formulas by number: those of a list, negations and conjunctions.

ghost use Rattle.std.specs.Prelude.{◌≡◌, ◌∷◌, [], map, IfOk};
ghost use Rattle.fol.specs.FormulaData.{NotFormula};
ghost use Rattle.certificates.specs.Parts.{both_of};
ghost use Rattle.term_pool.specs.Pools.{Extends};
ghost use Rattle.tableau.specs.PoolBranches.{IsFormulaNumber};
ghost use Rattle.tableau.specs.Numbers.{formula_at, formulas_at, IsNumberOf, AreNumbersOf, AreFormulas};

use crate::rules::compounds::first;
use base::memory::NoMemory;
use fol::operators::Junction;
use std::alloc::Global;
use term_pool::node::{Leaf, Node, One, Two};
use term_pool::pool::Pool;

/// An entry, and the formulas of a rule application at it: those that it adds, or the cases into which it splits the
/// branch.
#[derive(Drop)]
pub struct EntryStep {
    /// The number of the entry.
    pub entry: usize,
    /// The numbers of the formulas.
    pub formulas: Vec<usize>,
}

// The numbers of the formulas of a list.
pub(crate) fn listed(alloc: Global, pool: &Pool, list: usize) -> Result<Vec<usize>, NoMemory>
    ensures { IfOk result (λ numbers. AreNumbersOf pool.now (formulas_at pool.now list) numbers.items) }
{
    let mut numbers = Vec::new(alloc);
    let mut rest = list;
    while let Some((formula, others)) = first(pool, rest) {
        numbers.push(formula)?;
        rest = others;
    }
    Ok(numbers)
}

// Returns the number of the negation of a formula.
pub(crate) fn denial(pool: &mut Pool, formula: usize) -> Result<usize, NoMemory>
    requires { IsFormulaNumber pool.old formula }
    ensures extends { Extends pool.old pool.new }
    ensures is { IfOk result (IsNumberOf pool.new (NotFormula (formula_at pool.old formula))) }
{
    pool.insert(Node::One(One::Not, formula))
}

// Returns the numbers of the negations of formulas, in order.
pub(crate) fn denials(
    alloc: Global,
    pool: &mut Pool,
    formulas: &[usize],
) -> Result<Vec<usize>, NoMemory>
    requires { AreFormulas pool.old formulas.now }
    ensures extends { Extends pool.old pool.new }
    ensures are { IfOk result (λ numbers. AreNumbersOf pool.new (map NotFormula (map (formula_at pool.old) formulas.now)) numbers.items) }
{
    let mut numbers = Vec::new(alloc);
    for formula in formulas {
        numbers.push(denial(pool, *formula)?)?;
    }
    Ok(numbers)
}

// Returns the number of the conjunction of two formulas.
pub(crate) fn both(pool: &mut Pool, left: usize, right: usize) -> Result<usize, NoMemory>
    requires left { IsFormulaNumber pool.old left }
    requires right { IsFormulaNumber pool.old right }
    ensures extends { Extends pool.old pool.new }
    ensures is { IfOk result (IsNumberOf pool.new (both_of (formula_at pool.old left) (formula_at pool.old right))) }
{
    let none = pool.insert(Node::Leaf(Leaf::NilFormulas))?;
    let second = pool.insert(Node::Two(Two::ConsFormula, right, none))?;
    let list = pool.insert(Node::Two(Two::ConsFormula, left, second))?;
    pool.insert(Node::One(One::Join(Junction::AllOf), list))
}

// Two numbers, in order.
pub(crate) fn pair(alloc: Global, first: usize, second: usize) -> Result<Vec<usize>, NoMemory>
    ensures { IfOk result (λ numbers. numbers.items ≡ first ∷ second ∷ []) }
{
    let mut numbers = Vec::new(alloc);
    numbers.push(first)?;
    numbers.push(second)?;
    Ok(numbers)
}

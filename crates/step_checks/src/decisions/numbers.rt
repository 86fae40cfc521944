//! Terms that entries state to be whole numbers, and equations that entries negate literally.

ghost use Rattle.std.specs.Prelude.{◌≡◌, ◌↔◌, max, [], ◌∷◌, IsTrue, IfOk};
ghost use Rattle.base.specs.TypeData.{NumType};
ghost use Rattle.fol.specs.FormulaData.{IsFormula, EqFormula, NotFormula};
ghost use Rattle.term_pool.specs.Pools.{Extends};
ghost use Rattle.certificates.specs.BranchesBranch.{Stands};
ghost use Rattle.certificates.specs.Decisions.{AreNumbers};
ghost use Rattle.certificates.specs.Due.{AreGenerations};
ghost use Rattle.tableau.specs.PoolBranches.{branch_in, IsTermNumber, IsOver};
ghost use Rattle.tableau.specs.Terms.{term_at};

use base::memory::NoMemory;
use fol::operators::Comparison;
use tableau::branch::PoolBranch;
use term_pool::node::{Leaf, Node, One, Two};
use term_pool::pool::Pool;

// Decides whether an entry states that the term is a whole number.
fn is_number(pool: &mut Pool, branch: &PoolBranch, term: usize) -> Result<bool, NoMemory>
    requires over { IsOver pool.old branch.now }
    requires term { IsTermNumber pool.old term }
    ensures extends { Extends pool.old pool.new }
    ensures exact { IfOk result (λ known. IsTrue known ↔ Stands (branch_in pool.old branch.now) (IsFormula NumType (term_at pool.old term))) }
{
    let of = pool.insert(Node::Leaf(Leaf::TypeNum))?;
    let formula = pool.insert(Node::Two(Two::Is, of, term))?;
    Ok(branch.stands(pool, formula))
}

/// Decides whether entries state that both terms are whole numbers.
///
/// # Errors
///
/// Only if memory runs out.
pub fn are_numbers(
    pool: &mut Pool,
    branch: &PoolBranch,
    left: usize,
    right: usize,
) -> Result<bool, NoMemory>
    requires over { IsOver pool.old branch.now }
    requires left { IsTermNumber pool.old left }
    requires right { IsTermNumber pool.old right }
    ensures extends { Extends pool.old pool.new }
    ensures exact { IfOk result (λ known. IsTrue known ↔ AreNumbers (branch_in pool.old branch.now) (term_at pool.old left) (term_at pool.old right)) }
{
    let one = is_number(pool, branch, left)?;
    if !one {
        return Ok(false);
    }
    is_number(pool, branch, right)
}

/// Decides whether an entry is literally the negation of the equation of the two terms.
///
/// # Errors
///
/// Only if memory runs out.
pub fn are_said_to_differ(
    pool: &mut Pool,
    branch: &PoolBranch,
    left: usize,
    right: usize,
) -> Result<bool, NoMemory>
    requires over { IsOver pool.old branch.now }
    requires left { IsTermNumber pool.old left }
    requires right { IsTermNumber pool.old right }
    ensures extends { Extends pool.old pool.new }
    ensures exact { IfOk result (λ known. IsTrue known ↔ Stands (branch_in pool.old branch.now) (NotFormula (EqFormula (term_at pool.old left) (term_at pool.old right)))) }
{
    let equation = pool.insert(Node::Two(Two::Compare(Comparison::Eq), left, right))?;
    let denial = pool.insert(Node::One(One::Not, equation))?;
    Ok(branch.stands(pool, denial))
}

// Decides whether the generation is the greater of the two.
fn is_greatest(one: usize, other: usize, generation: usize) -> bool
    ensures { IsTrue result ↔ (generation ≡ max one other) }
{
    one.max(other) == generation
}

/// Decides whether this is the greater of the generations of the two terms.
pub fn is_generation_of(
    pool: &Pool,
    branch: &PoolBranch,
    left: usize,
    right: usize,
    generation: usize,
) -> bool
    requires over { IsOver pool.now branch.now }
    requires left { IsTermNumber pool.now left }
    requires right { IsTermNumber pool.now right }
    ensures { IsTrue result ↔ AreGenerations (branch_in pool.now branch.now) (term_at pool.now left ∷ term_at pool.now right ∷ []) generation }
{
    let Some(one) = branch.generation(pool, left) else {
        return false;
    };
    let Some(other) = branch.generation(pool, right) else {
        return false;
    };
    is_greatest(one, other, generation)
}

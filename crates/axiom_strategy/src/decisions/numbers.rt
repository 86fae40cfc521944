//! Terms that entries state to be whole numbers.

ghost use Rattle.std.specs.Prelude.{◌≡◌, ◌↔◌, ℕ, ◌<◌, false, length, IsTrue, IfOk, MatchOption};
ghost use Rattle.tableau.specs.PoolBranches.{branch_in, IsOver};
ghost use Rattle.axiom_strategy.specs.Numbers.{mark_at, SaysNumber, SaysNoNumber, AreBothMarked, AreNumberMarks};

use base::memory::NoMemory;
use std::alloc::Global;
use tableau::branch::PoolBranch;
use tableau::whole_numbers::number_said;
use term_pool::pool::Pool;

// The term that the entry with this number states to be a whole number.
fn number_at(pool: &Pool, branch: &PoolBranch, i: usize) -> Option<usize>
    requires { IsOver pool.now branch.now }
    ensures { MatchOption result (SaysNoNumber (branch_in pool.now branch.now) i) (SaysNumber pool.now (branch_in pool.now branch.now) i) }
{
    match branch.entry(i) {
        Some(entry) => number_said(pool, entry.formula),
        None => None,
    }
}

// The given number of marks, all false.
fn no_marks(alloc: Global, count: usize) -> Result<Vec<bool>, NoMemory>
    ensures len { IfOk result (λ marks. length marks.items ≡ count) }
    ensures none { IfOk result (λ marks. (n : ℕ) → n < count → mark_at marks.items n ≡ false) }
{
    Ok(vec![in alloc; false; count]?)
}

/// For each number of the pool, whether an entry states that its term is a whole number. `NoMemory` if memory runs out.
pub(crate) fn number_marks(
    alloc: Global,
    pool: &Pool,
    branch: &PoolBranch,
) -> Result<Vec<bool>, NoMemory>
    requires { IsOver pool.now branch.now }
    ensures { IfOk result (λ marks. AreNumberMarks pool.now (branch_in pool.now branch.now) marks.items) }
{
    pool.one_number();
    let mut marks = no_marks(alloc, pool.len())?;
    for i in 0..branch.len() {
        let Some(term) = number_at(pool, branch, i) else {
            continue;
        };
        marks[term] = true;
    }
    Ok(marks)
}

/// Decides whether both terms are marked as numbers.
pub(crate) fn are_both(numbers: &[bool], left: usize, right: usize) -> bool
    requires left { left < length numbers.now }
    requires right { right < length numbers.now }
    ensures { IsTrue result ↔ AreBothMarked numbers.now left right }
{
    if numbers[left] {
        return numbers[right];
    }
    false
}

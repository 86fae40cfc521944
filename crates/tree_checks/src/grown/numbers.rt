//! The number of formulas that a step adds, and their generation.

ghost use Rattle.std.specs.Prelude.{◌≡◌, ◌↔◌, List, IsTrue, MatchOption};
ghost use Rattle.term_pool.specs.declared.node.Node.{Node};
ghost use Rattle.certificates.specs.ProofTraces.{generation_at};
ghost use Rattle.tableau.specs.PoolBranches.{branch_in};
ghost use Rattle.tree_checks.specs.Lists.{IsNotOne, IsOne, IsNoPair, IsPair};

use tableau::branch::PoolBranch;

// The generation of the entry with this number; 0 if there is no such entry.
fn generation_of(branch: &PoolBranch, entry: usize) -> usize
    ensures { (ns : List Node) → result ≡ generation_at (branch_in ns branch.now) entry }
{
    match branch.entry(entry) {
        Some(entry) => entry.generation,
        None => 0,
    }
}

/// Decides whether the generation is that of the entry with this number.
pub(crate) fn is_own(branch: &PoolBranch, entry: usize, generation: usize) -> bool
    ensures { (ns : List Node) → IsTrue result ↔ (generation ≡ generation_at (branch_in ns branch.now) entry) }
{
    generation_of(branch, entry) == generation
}

/// The number of a list with exactly one; `None` for any other list.
pub(crate) fn only(numbers: &[usize]) -> Option<usize>
    ensures { MatchOption result (IsNotOne numbers.now) (IsOne numbers.now) }
{
    if numbers.len() != 1 {
        return None;
    }
    Some(numbers[0])
}

/// The numbers of a list with exactly two; `None` for any other list.
pub(crate) fn pair(numbers: &[usize]) -> Option<(usize, usize)>
    ensures { MatchOption result (IsNoPair numbers.now) (IsPair numbers.now) }
{
    if numbers.len() != 2 {
        return None;
    }
    Some((numbers[0], numbers[1]))
}

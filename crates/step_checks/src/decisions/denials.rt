//! Equations that entries negate.

ghost use Rattle.std.specs.Prelude.{◌≡◌, ◌↔◌, ◌⊎◌, IsTrue};
ghost use Rattle.certificates.specs.Decisions.{IsDenied};
ghost use Rattle.tableau.specs.PoolBranches.{branch_in, IsOver};
ghost use Rattle.tableau.specs.Terms.{term_at, IsBranchTerm, AreClassesOf};
ghost use Rattle.step_checks.specs.Pairs.{DeniesClasses};

use axiom_strategy::decisions::denials::sides_at;
use congruence_closure::branch_classes::BranchClasses;
use tableau::branch::PoolBranch;
use term_pool::pool::Pool;

// Decides whether the two numbers are these, in either order.
fn are_they(left: usize, right: usize, one: usize, other: usize) -> bool
    ensures { IsTrue result ↔ (((left ≡ one) × (right ≡ other)) ⊎ ((left ≡ other) × (right ≡ one))) }
{
    if left == one && right == other {
        return true;
    }
    left == other && right == one
}

// Decides whether the entry with this number states that terms of the two classes differ.
fn denies_classes(
    pool: &Pool,
    branch: &PoolBranch,
    classes: &BranchClasses,
    i: usize,
    one: usize,
    other: usize,
) -> bool
    requires over { IsOver pool.now branch.now }
    requires classes { AreClassesOf pool.now branch.now classes.now }
    ensures { IsTrue result ↔ DeniesClasses pool.now (branch_in pool.now branch.now) classes.now i one other }
{
    pool.one_number();
    let Some((left, right)) = sides_at(pool, branch, i) else {
        return false;
    };
    let first = classes.class(left);
    let second = classes.class(right);
    are_they(first, second, one, other)
}

/// Decides whether an entry states that the terms differ, up to congruence and with the sides in either order.
/// `classes` are those of the branch.
pub fn is_denied(
    pool: &Pool,
    branch: &PoolBranch,
    classes: &BranchClasses,
    left: usize,
    right: usize,
) -> bool
    requires over { IsOver pool.now branch.now }
    requires classes { AreClassesOf pool.now branch.now classes.now }
    requires left { IsBranchTerm pool.now (branch_in pool.now branch.now) left }
    requires right { IsBranchTerm pool.now (branch_in pool.now branch.now) right }
    ensures { IsTrue result ↔ IsDenied (branch_in pool.now branch.now) (term_at pool.now left) (term_at pool.now right) }
{
    classes.exact();
    pool.one_number();
    let one = classes.class(left);
    let other = classes.class(right);
    for i in 0..branch.len() {
        if denies_classes(pool, branch, classes, i, one, other) {
            return true;
        }
    }
    false
}

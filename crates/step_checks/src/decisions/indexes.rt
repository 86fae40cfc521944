//! Index terms of aliasing memories and vectors.

ghost use Rattle.std.specs.Prelude.{◌↔◌, ℕ, ◌<◌, length, IsTrue, IfOk};
ghost use Rattle.certificates.specs.Decisions.{AreIndexes};
ghost use Rattle.tableau.specs.PoolBranches.{branch_in, IsTermNumber, IsOver};
ghost use Rattle.congruence_closure.specs.Known.{IsKnown};
ghost use Rattle.tableau.specs.Terms.{term_at, AreBranchTerms, AreClassesOf};
ghost use Rattle.tableau.specs.Groups.{AreGroups};
ghost use Rattle.axiom_strategy.specs.Positions.{IsReadAt};
ghost use Rattle.step_checks.specs.Pairs.{AreReads, AreReadInOne, IsMeeting};

use axiom_strategy::decisions::positions::read_at;
use base::keyed_lists::pairs::Pairs;
use base::memory::NoMemory;
use congruence_closure::branch_classes::BranchClasses;
use std::alloc::Global;
use tableau::aliasing::groups::groups;
use tableau::aliasing::terms::{is_term, terms};
use tableau::branch::PoolBranch;
use term_pool::pool::Pool;

// The groups, each with the classes at which something of it is read. `terms` are the numbers of the branch's terms.
fn reads(
    alloc: Global,
    pool: &Pool,
    branch: &PoolBranch,
    classes: &BranchClasses,
    groups: &[usize],
    terms: &[usize],
) -> Result<Pairs, NoMemory>
    requires over { IsOver pool.now branch.now }
    requires classes { AreClassesOf pool.now branch.now classes.now }
    requires groups { AreGroups pool.now (branch_in pool.now branch.now) groups.now }
    requires terms { AreBranchTerms pool.now (branch_in pool.now branch.now) terms.now }
    ensures { IfOk result (λ found. AreReads pool.now (branch_in pool.now branch.now) classes.now groups.now found) }
{
    pool.one_number();
    let mut seen = Pairs::new(alloc);
    for number in terms {
        let Some((from, position)) = read_at(pool, *number) else {
            continue;
        };
        let group = groups[from];
        let class = classes.class(position);
        seen.add(group, class)?;
    }
    Ok(seen)
}

// Decides whether the term with this number reads, at the one class, something of a group of which something is read at
// the other class.
fn is_meeting(
    pool: &Pool,
    classes: &BranchClasses,
    groups: &[usize],
    reads: &Pairs,
    number: usize,
    one: usize,
    other: usize,
) -> bool
    requires number { number < length pool.now }
    requires from { (p : ℕ × ℕ) → IsReadAt pool.now number p → p.0 < length groups.now }
    requires position { (p : ℕ × ℕ) → IsReadAt pool.now number p → IsKnown classes.now p.1 }
    ensures { IsTrue result ↔ IsMeeting pool.now classes.now groups.now reads.now one other number }
{
    let Some((from, position)) = read_at(pool, number) else {
        return false;
    };
    if classes.class(position) != one {
        return false;
    }
    reads.has(groups[from], other)
}

// Decides whether something of one group is read at both classes.
fn are_read_in_one(
    pool: &Pool,
    branch: &PoolBranch,
    classes: &BranchClasses,
    groups: &[usize],
    terms: &[usize],
    reads: &Pairs,
    one: usize,
    other: usize,
) -> bool
    requires over { IsOver pool.now branch.now }
    requires classes { AreClassesOf pool.now branch.now classes.now }
    requires groups { AreGroups pool.now (branch_in pool.now branch.now) groups.now }
    requires terms { AreBranchTerms pool.now (branch_in pool.now branch.now) terms.now }
    requires reads { AreReads pool.now (branch_in pool.now branch.now) classes.now groups.now reads.now }
    ensures { IsTrue result ↔ AreReadInOne pool.now (branch_in pool.now branch.now) classes.now groups.now one other }
{
    pool.one_number();
    for number in terms {
        if is_meeting(pool, classes, groups, reads, *number, one, other) {
            return true;
        }
    }
    false
}

/// Decides whether both terms are indexes of aliasing memories or vectors of the branch. `classes` are those of the
/// branch. The running time is linear in the length of the pool.
///
/// # Errors
///
/// Only if memory runs out.
pub fn are_indexes(
    alloc: Global,
    pool: &Pool,
    branch: &PoolBranch,
    classes: &BranchClasses,
    left: usize,
    right: usize,
) -> Result<bool, NoMemory>
    requires over { IsOver pool.now branch.now }
    requires classes { AreClassesOf pool.now branch.now classes.now }
    requires left { IsTermNumber pool.now left }
    requires right { IsTermNumber pool.now right }
    ensures { IfOk result (λ known. IsTrue known ↔ AreIndexes (branch_in pool.now branch.now) (term_at pool.now left) (term_at pool.now right)) }
{
    classes.exact();
    pool.one_number();
    if !is_term(pool, branch, left) {
        return Ok(false);
    }
    if !is_term(pool, branch, right) {
        return Ok(false);
    }
    let one = classes.class(left);
    let other = classes.class(right);
    let listed = terms(alloc, pool, branch)?;
    let all = listed.as_slice();
    let near = groups(alloc, pool, branch, classes, all)?;
    let found = reads(alloc, pool, branch, classes, near.as_slice(), all)?;
    Ok(are_read_in_one(
        pool,
        branch,
        classes,
        near.as_slice(),
        all,
        &found,
        one,
        other,
    ))
}

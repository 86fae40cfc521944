//! Cuts on the equality of two terms.

ghost use Rattle.std.specs.Prelude.{◌≡◌, ◌↔◌, ◌<◌, length, All, IsTrue, IfOk, OnOk, MatchOption};
ghost use Rattle.term_pool.specs.Pools.{Extends};
ghost use Rattle.tableau.specs.PoolBranches.{branch_in, IsOver};
ghost use Rattle.congruence_closure.specs.Known.{IsKnown};
ghost use Rattle.tableau.specs.Terms.{AreClassesOf};
ghost use Rattle.axiom_strategy.specs.Numbers.{AreNumberMarks};
ghost use Rattle.axiom_strategy.specs.DuePairs.{AreCutPositions, IsDuePair};
ghost use Rattle.axiom_strategy.specs.Cuts.{NoCut, IsCut, kind_of, IsShallowTerm, IsChoice, AreCandidates, IsDeniedEither, IsOpen, NoneOpenWith, IsOpenWith, NoOpenPair, IsOpenPair, IsKnownBelow, AreAllKnown};

use crate::decisions::denials::denied_classes;
use crate::decisions::numbers::{are_both, number_marks};
use crate::decisions::positions::{Position, Positions, find_positions};
use base::keyed_lists::lists::Lists;
use base::keyed_lists::pairs::Pairs;
use base::memory::NoMemory;
use congruence_closure::branch_classes::BranchClasses;
use fol::operators::Comparison;
use std::alloc::Global;
use tableau::aliasing::groups::groups;
use tableau::aliasing::terms::terms;
use tableau::branch::PoolBranch;
use term_pool::node::{Node, Two};
use term_pool::pool::{MOST_DEPTH, Pool};

/// Two terms on whose equality a cut is due.
#[derive(Clone, Copy)]
pub struct CutStep {
    /// The numbers of the terms.
    pub left: usize,
    pub right: usize,
    /// The number of their equation.
    pub equation: usize,
}

// ---- candidates

// Numbers are of one kind, other terms of another.
fn kind_of(is_number: bool) -> usize
    ensures { result ≡ kind_of is_number }
{
    if is_number { 1 } else { 0 }
}

// Decides whether the term is shallow enough for the negation of an equation with it.
fn is_shallow(pool: &Pool, term: usize) -> bool
    requires { term < length pool.now }
    ensures { IsTrue result ↔ IsShallowTerm pool.now term }
{
    pool.depth(term) + 2 <= MOST_DEPTH
}

// Chooses the term, unless one of its class and kind is chosen already.
fn choose(
    found: &mut Vec<usize>,
    seen: &mut Pairs,
    class: usize,
    kind: usize,
    term: usize,
) -> Result<(), NoMemory>
    ensures { OnOk result (IsChoice class kind term found.old.items found.new.items seen.old seen.new) }
{
    let fresh = seen.add(class, kind)?;
    if !fresh {
        return Ok(());
    }
    found.push(term)?;
    Ok(())
}

// For each class one shallow term that is a number and one that is none, if there are such terms.
fn candidates(
    alloc: Global,
    pool: &Pool,
    classes: &BranchClasses,
    numbers: &[bool],
    terms: &[usize],
) -> Result<Vec<usize>, NoMemory>
    requires known { All (IsKnown classes.now) terms.now }
    requires within { All (λ n. n < length pool.now) terms.now }
    requires numbers { length numbers.now ≡ length pool.now }
    ensures { IfOk result (λ found. AreCandidates pool.now classes.now numbers.now terms.now found.items) }
{
    let mut found = Vec::new(alloc);
    let mut seen = Pairs::new(alloc);
    for term in terms {
        if !is_shallow(pool, *term) {
            continue;
        }
        let class = classes.class(*term);
        let kind = kind_of(numbers[*term]);
        choose(&mut found, &mut seen, class, kind, *term)?;
    }
    Ok(found)
}

// ---- open pairs

// Decides whether an entry states that a term of the one class differs from a term of the other.
fn is_denied(denied: &Pairs, one: usize, other: usize) -> bool
    ensures { IsTrue result ↔ IsDeniedEither denied.now one other }
{
    if denied.has(one, other) {
        return true;
    }
    denied.has(other, one)
}

// Decides whether the equality of two terms is open, and one of them is no number.
fn is_open(
    classes: &BranchClasses,
    numbers: &[bool],
    denied: &Pairs,
    left: usize,
    right: usize,
) -> bool
    requires left { IsKnownBelow classes.now (length numbers.now) left }
    requires right { IsKnownBelow classes.now (length numbers.now) right }
    ensures { IsTrue result ↔ IsOpen classes.now numbers.now denied.now left right }
{
    let one = classes.class(left);
    let other = classes.class(right);
    if one == other {
        return false;
    }
    if is_denied(denied, one, other) {
        return false;
    }
    !are_both(numbers, left, right)
}

// One of the other terms whose equality with the term is open, where one of the two is no number.
fn open_with(
    classes: &BranchClasses,
    numbers: &[bool],
    denied: &Pairs,
    left: usize,
    others: &[usize],
) -> Option<usize>
    requires left { IsKnownBelow classes.now (length numbers.now) left }
    requires others { All (IsKnownBelow classes.now (length numbers.now)) others.now }
    ensures { MatchOption result (NoneOpenWith classes.now numbers.now denied.now left others.now) (IsOpenWith classes.now numbers.now denied.now left others.now) }
{
    for other in others {
        if is_open(classes, numbers, denied, left, *other) {
            return Some(*other);
        }
    }
    None
}

// Two terms that index one group, whose equality is open, and one of which is no number.
fn open_pair(
    classes: &BranchClasses,
    numbers: &[bool],
    denied: &Pairs,
    all: &[Position],
    by_group: &Lists,
) -> Option<(usize, usize)>
    requires { AreAllKnown classes.now (length numbers.now) all.now by_group.now }
    ensures { MatchOption result (NoOpenPair classes.now numbers.now denied.now all.now by_group.now) (IsOpenPair classes.now numbers.now denied.now all.now by_group.now) }
{
    for position in all {
        let others = by_group.at(position.group);
        if let Some(right) = open_with(classes, numbers, denied, position.term, others) {
            return Some((position.term, right));
        }
    }
    None
}

// ---- the cut

// The index terms among the candidates, by groups of aliasing memories and vectors.
fn cut_positions(
    alloc: Global,
    pool: &Pool,
    branch: &PoolBranch,
    classes: &BranchClasses,
    numbers: &[bool],
) -> Result<Positions, NoMemory>
    requires over { IsOver pool.now branch.now }
    requires classes { AreClassesOf pool.now branch.now classes.now }
    requires numbers { length numbers.now ≡ length pool.now }
    ensures { IfOk result (λ positions. AreCutPositions pool.now (branch_in pool.now branch.now) classes.now numbers.now positions.all.items positions.by_group) }
{
    classes.exact();
    pool.one_number();
    let listed = terms(alloc, pool, branch)?;
    let all = listed.as_slice();
    let near = groups(alloc, pool, branch, classes, all)?;
    let found = candidates(alloc, pool, classes, numbers, all)?;
    let positions = find_positions(
        alloc,
        pool,
        branch,
        classes,
        near.as_slice(),
        all,
        found.as_slice(),
    )?;
    Ok(positions)
}

// Two terms on whose equality a cut is due; `None` if there are none.
fn due_pair(
    alloc: Global,
    pool: &Pool,
    branch: &PoolBranch,
    classes: &BranchClasses,
    numbers: &[bool],
) -> Result<Option<(usize, usize)>, NoMemory>
    requires over { IsOver pool.now branch.now }
    requires classes { AreClassesOf pool.now branch.now classes.now }
    requires numbers { AreNumberMarks pool.now (branch_in pool.now branch.now) numbers.now }
    ensures { IfOk result (λ found. MatchOption found (NoCut (branch_in pool.now branch.now)) (IsDuePair pool.now (branch_in pool.now branch.now))) }
{
    classes.exact();
    pool.one_number();
    let denied = denied_classes(alloc, pool, branch, classes)?;
    let positions = cut_positions(alloc, pool, branch, classes, numbers)?;
    let all = positions.all.as_slice();
    Ok(open_pair(classes, numbers, &denied, all, &positions.by_group))
}

/// Finds two terms on whose equality a cut is due, with their numbers and that of their equation; `None` if no cut is
/// due. `classes` are those of the branch. The running time is linear in the length of the pool plus the number of
/// pairs of index classes within one group of aliasing memories and vectors. `NoMemory` if memory runs out.
pub fn next_cut(
    alloc: Global,
    pool: &mut Pool,
    branch: &PoolBranch,
    classes: &BranchClasses,
) -> Result<Option<CutStep>, NoMemory>
    requires over { IsOver pool.old branch.now }
    requires classes { AreClassesOf pool.old branch.now classes.now }
    ensures extends { Extends pool.old pool.new }
    ensures due { IfOk result (λ found. MatchOption found (NoCut (branch_in pool.new branch.now)) (IsCut pool.new (branch_in pool.new branch.now))) }
{
    let numbers = number_marks(alloc, pool, branch)?;
    let marks = numbers.as_slice();
    let Some((left, right)) = due_pair(alloc, pool, branch, classes, marks)? else {
        return Ok(None);
    };
    let equation = pool.insert(Node::Two(Two::Compare(Comparison::Eq), left, right))?;
    Ok(Some(CutStep {
        left,
        right,
        equation,
    }))
}

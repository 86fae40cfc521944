//! Decisions on two numbers: which of them is the greater.

ghost use Rattle.std.specs.Prelude.{◌≡◌, ◌↔◌, ◌<◌, [], ◌∷◌, length, All, IsTrue, IfOk, MatchOption};
ghost use Rattle.term_pool.specs.Pools.{Extends};
ghost use Rattle.certificates.specs.BranchesBranch.{IsGeneration};
ghost use Rattle.certificates.specs.Due.{trichotomy_axiom};
ghost use Rattle.tableau.specs.PoolBranches.{branch_in, IsFormulaNumber, IsTermNumber, IsOver};
ghost use Rattle.tableau.specs.Numbers.{formula_at, IsNumberOf};
ghost use Rattle.axiom_instances.specs.Numbers.{IsTermNumber as IsTerm};
ghost use Rattle.axiom_instances.specs.Lists.{Adds};
ghost use Rattle.tableau.specs.Terms.{term_at, IsBranchTerm, AreClassesOf};
ghost use Rattle.axiom_strategy.specs.Numbers.{AreNumberMarks};
ghost use Rattle.axiom_strategy.specs.Orders.{NoOrder, IsOrder, order_row, NotFresh, IsFreshStep, IsAddable, IsWith, IsListed, IsInGroup, AreOfBranch, NoneFresh, IsFreshPair, AreMarked, NoneDeniedAt, IsDeniedAt, AreDeniedPairs, AreNumberPositions};

use crate::decisions::denials::sides_at;
use crate::decisions::numbers::{are_both, number_marks};
use crate::decisions::positions::{Position, Positions, find_positions};
use axiom_instances::triggered::{Row, TriggeredList, TriggeredTerms, ask};
use axioms::axiom::{Alternative, Axiom};
use base::keyed_lists::lists::Lists;
use base::memory::NoMemory;
use congruence_closure::branch_classes::BranchClasses;
use fol::operators::{Binary, Comparison, Constant, Junction};
use std::alloc::Global;
use tableau::aliasing::groups::groups;
use tableau::aliasing::terms::terms;
use tableau::branch::PoolBranch;
use term_pool::node::{Leaf, Node, One, Two};
use term_pool::pool::{MOST_DEPTH, Pool};

/// An instance of the trichotomy axiom: two numbers are equal, or one of them is at least 1 less than the other.
#[derive(Clone, Copy)]
pub struct OrderStep {
    /// The number of the instance's formula.
    pub formula: usize,
    /// The instance's generation.
    pub generation: usize,
}

// ---- the instance for two terms

// Appends the instance for two terms to a list.
fn ask_order(
    pool: &mut Pool,
    list: &mut TriggeredList,
    left: usize,
    right: usize,
) -> Result<(), NoMemory>
    requires left { IsTerm pool.old left }
    requires right { IsTerm pool.old right }
    ensures extends { Extends pool.old pool.new }
    ensures adds { IfOk result (λ u. Adds pool.old pool.new list.old.items.items list.new.items.items (order_row (term_at pool.old left) (term_at pool.old right) ∷ [])) }
{
    let name = Axiom::Cases(Alternative::Trichotomy);
    let rows = [Row { name, position: 19 }];
    let terms = TriggeredTerms::Two(left, right);
    let given = [left, right];
    let nodes = [
        Node::Leaf(Leaf::TypeNum),
        Node::Two(Two::Is, 2, 0),
        Node::One(One::Not, 3),
        Node::Two(Two::Is, 2, 1),
        Node::One(One::Not, 5),
        Node::Two(Two::Compare(Comparison::Eq), 0, 1),
        Node::Leaf(Leaf::Constant(Constant::Num(1))),
        Node::Two(Two::Binary(Binary::Sub), 1, 8),
        Node::Two(Two::Compare(Comparison::Le), 0, 9),
        Node::Two(Two::Binary(Binary::Sub), 0, 8),
        Node::Two(Two::Compare(Comparison::Le), 1, 11),
        Node::Leaf(Leaf::NilFormulas),
        Node::Two(Two::ConsFormula, 12, 13),
        Node::Two(Two::ConsFormula, 10, 14),
        Node::Two(Two::ConsFormula, 7, 15),
        Node::Two(Two::ConsFormula, 6, 16),
        Node::Two(Two::ConsFormula, 4, 17),
        Node::One(One::Join(Junction::AnyOf), 18),
    ];
    ask(pool, list, terms, &given, &nodes, &rows)
}

/// Returns the number of the instance for two terms.
pub fn instance(
    alloc: Global,
    pool: &mut Pool,
    left: usize,
    right: usize,
) -> Result<usize, NoMemory>
    requires left { IsTermNumber pool.old left }
    requires right { IsTermNumber pool.old right }
    ensures extends { Extends pool.old pool.new }
    ensures is { IfOk result (IsNumberOf pool.new (trichotomy_axiom (term_at pool.old left) (term_at pool.old right))) }
{
    let mut list = TriggeredList {
        alloc,
        items: Vec::new(alloc),
    };
    ask_order(pool, &mut list, left, right)?;
    Ok(list.items[0].formula)
}

// The generation of a term of the branch.
fn generation(pool: &Pool, branch: &PoolBranch, term: usize) -> usize
    requires over { IsOver pool.now branch.now }
    requires term { IsBranchTerm pool.now (branch_in pool.now branch.now) term }
    ensures { IsGeneration (branch_in pool.now branch.now) (term_at pool.now term) result }
{
    match branch.generation(pool, term) {
        Some(generation) => generation,
        None => 0,
    }
}

// Decides whether a formula is new on the branch and does not exceed the maximal depth of a formula.
fn is_addable(pool: &Pool, branch: &PoolBranch, formula: usize) -> bool
    requires over { IsOver pool.now branch.now }
    requires formula { IsFormulaNumber pool.now formula }
    ensures { IsTrue result ↔ IsAddable (branch_in pool.now branch.now) (formula_at pool.now formula) }
{
    if branch.stands(pool, formula) {
        return false;
    }
    if pool.depth(formula) > MOST_DEPTH {
        return false;
    }
    true
}

// The instance for two terms, with its generation, if it is fresh.
pub(crate) fn fresh_order(
    alloc: Global,
    pool: &mut Pool,
    branch: &PoolBranch,
    classes: &BranchClasses,
    left: usize,
    right: usize,
) -> Result<Option<OrderStep>, NoMemory>
    requires over { IsOver pool.old branch.now }
    requires classes { AreClassesOf pool.old branch.now classes.now }
    requires left { IsBranchTerm pool.old (branch_in pool.old branch.now) left }
    requires right { IsBranchTerm pool.old (branch_in pool.old branch.now) right }
    ensures extends { Extends pool.old pool.new }
    ensures due { IfOk result (λ found. MatchOption found (NotFresh (branch_in pool.old branch.now) (term_at pool.old left) (term_at pool.old right)) (IsFreshStep pool.new (branch_in pool.old branch.now) (term_at pool.old left) (term_at pool.old right))) }
{
    classes.exact();
    pool.one_number();
    let one = classes.class(left);
    let other = classes.class(right);
    if one == other {
        return Ok(None);
    }
    let left_generation = generation(pool, branch, left);
    let right_generation = generation(pool, branch, right);
    let turned = instance(alloc, pool, right, left)?;
    if branch.stands(pool, turned) {
        return Ok(None);
    }
    let formula = instance(alloc, pool, left, right)?;
    if is_addable(pool, branch, formula) {
        let generation = left_generation.max(right_generation);
        return Ok(Some(OrderStep {
            formula,
            generation,
        }));
    }
    Ok(None)
}

// ---- the first of some pairs whose instance is fresh

fn order_with(
    alloc: Global,
    pool: &mut Pool,
    branch: &PoolBranch,
    classes: &BranchClasses,
    left: usize,
    others: &[usize],
) -> Result<Option<OrderStep>, NoMemory>
    requires over { IsOver pool.old branch.now }
    requires classes { AreClassesOf pool.old branch.now classes.now }
    requires pairs { AreOfBranch pool.old (branch_in pool.old branch.now) (IsWith left others.now) }
    ensures extends { Extends pool.old pool.new }
    ensures due { IfOk result (λ found. MatchOption found (NoneFresh pool.old (branch_in pool.old branch.now) (IsWith left others.now)) (IsFreshPair pool.old pool.new (branch_in pool.old branch.now) (IsWith left others.now))) }
{
    for right in others {
        if let Some(step) = fresh_order(alloc, pool, branch, classes, left, *right)? {
            return Ok(Some(step));
        }
    }
    Ok(None)
}

fn order_in_groups(
    alloc: Global,
    pool: &mut Pool,
    branch: &PoolBranch,
    classes: &BranchClasses,
    all: &[Position],
    by_group: &Lists,
) -> Result<Option<OrderStep>, NoMemory>
    requires over { IsOver pool.old branch.now }
    requires classes { AreClassesOf pool.old branch.now classes.now }
    requires pairs { AreOfBranch pool.old (branch_in pool.old branch.now) (IsInGroup all.now by_group.now) }
    ensures extends { Extends pool.old pool.new }
    ensures due { IfOk result (λ found. MatchOption found (NoneFresh pool.old (branch_in pool.old branch.now) (IsInGroup all.now by_group.now)) (IsFreshPair pool.old pool.new (branch_in pool.old branch.now) (IsInGroup all.now by_group.now))) }
{
    for position in all {
        let others = by_group.at(position.group);
        if let Some(step) = order_with(alloc, pool, branch, classes, position.term, others)? {
            return Ok(Some(step));
        }
    }
    Ok(None)
}

fn order_of_pairs(
    alloc: Global,
    pool: &mut Pool,
    branch: &PoolBranch,
    classes: &BranchClasses,
    pairs: &[(usize, usize)],
) -> Result<Option<OrderStep>, NoMemory>
    requires over { IsOver pool.old branch.now }
    requires classes { AreClassesOf pool.old branch.now classes.now }
    requires pairs { AreOfBranch pool.old (branch_in pool.old branch.now) (IsListed pairs.now) }
    ensures extends { Extends pool.old pool.new }
    ensures due { IfOk result (λ found. MatchOption found (NoneFresh pool.old (branch_in pool.old branch.now) (IsListed pairs.now)) (IsFreshPair pool.old pool.new (branch_in pool.old branch.now) (IsListed pairs.now))) }
{
    for pair in pairs {
        if let Some(step) = fresh_order(alloc, pool, branch, classes, pair.0, pair.1)? {
            return Ok(Some(step));
        }
    }
    Ok(None)
}

// ---- pairs of numbers

// The marked terms.
fn marked(alloc: Global, marks: &[bool], terms: &[usize]) -> Result<Vec<usize>, NoMemory>
    requires { All (λ n. n < length marks.now) terms.now }
    ensures { IfOk result (λ found. AreMarked marks.now terms.now found.items) }
{
    let mut found = Vec::new(alloc);
    for term in terms {
        if !marks[*term] {
            continue;
        }
        found.push(*term)?;
    }
    Ok(found)
}

// The sides of the equation that the entry with this number negates, if both are numbers.
fn numbers_denied(
    pool: &Pool,
    branch: &PoolBranch,
    numbers: &[bool],
    i: usize,
) -> Option<(usize, usize)>
    requires over { IsOver pool.now branch.now }
    requires numbers { AreNumberMarks pool.now (branch_in pool.now branch.now) numbers.now }
    ensures { MatchOption result (NoneDeniedAt pool.now (branch_in pool.now branch.now) i) (IsDeniedAt pool.now (branch_in pool.now branch.now) i) }
{
    pool.one_number();
    let Some((left, right)) = sides_at(pool, branch, i) else {
        return None;
    };
    if are_both(numbers, left, right) {
        return Some((left, right));
    }
    None
}

// The sides of the equations that entries negate, where both are numbers.
fn denied_pairs(
    alloc: Global,
    pool: &Pool,
    branch: &PoolBranch,
    numbers: &[bool],
) -> Result<Vec<(usize, usize)>, NoMemory>
    requires over { IsOver pool.now branch.now }
    requires numbers { AreNumberMarks pool.now (branch_in pool.now branch.now) numbers.now }
    ensures { IfOk result (λ pairs. AreDeniedPairs pool.now (branch_in pool.now branch.now) pairs.items) }
{
    pool.one_number();
    let mut pairs = Vec::new(alloc);
    for i in 0..branch.len() {
        let Some(pair) = numbers_denied(pool, branch, numbers, i) else {
            continue;
        };
        pairs.push(pair)?;
    }
    Ok(pairs)
}

// The numbers that index aliasing memories and vectors, by groups.
pub(crate) fn number_positions(
    alloc: Global,
    pool: &Pool,
    branch: &PoolBranch,
    classes: &BranchClasses,
    numbers: &[bool],
) -> Result<Positions, NoMemory>
    requires over { IsOver pool.now branch.now }
    requires classes { AreClassesOf pool.now branch.now classes.now }
    requires numbers { AreNumberMarks pool.now (branch_in pool.now branch.now) numbers.now }
    ensures { IfOk result (λ positions. AreNumberPositions pool.now (branch_in pool.now branch.now) positions.all.items positions.by_group) }
{
    classes.exact();
    pool.one_number();
    let listed = terms(alloc, pool, branch)?;
    let all = listed.as_slice();
    let near = groups(alloc, pool, branch, classes, all)?;
    let found = marked(alloc, numbers, all)?;
    let positions = find_positions(
        alloc,
        pool,
        branch,
        classes,
        near.as_slice(),
        all,
        found.as_slice(),
    )?;
    Ok(positions)
}

/// Returns an instance of the trichotomy axiom that is due, with its generation; `None` if no instance of it is due.
/// `classes` are those of the branch. The running time is linear in the length of the pool plus the number of pairs of
/// numbers that index one group of aliasing memories and vectors. `NoMemory` if memory runs out.
pub fn next_order(
    alloc: Global,
    pool: &mut Pool,
    branch: &PoolBranch,
    classes: &BranchClasses,
) -> Result<Option<OrderStep>, NoMemory>
    requires over { IsOver pool.old branch.now }
    requires classes { AreClassesOf pool.old branch.now classes.now }
    ensures extends { Extends pool.old pool.new }
    ensures due { IfOk result (λ found. MatchOption found (NoOrder (branch_in pool.new branch.now)) (IsOrder pool.new (branch_in pool.new branch.now))) }
{
    classes.exact();
    pool.one_number();
    let numbers = number_marks(alloc, pool, branch)?;
    let marks = numbers.as_slice();
    let pairs = denied_pairs(alloc, pool, branch, marks)?;
    let positions = number_positions(alloc, pool, branch, classes, marks)?;
    if let Some(step) = order_of_pairs(alloc, pool, branch, classes, pairs.as_slice())? {
        return Ok(Some(step));
    }
    let all = positions.all.as_slice();
    order_in_groups(alloc, pool, branch, classes, all, &positions.by_group)
}

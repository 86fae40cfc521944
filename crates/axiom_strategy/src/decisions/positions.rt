//! Index terms of memories and vectors, by groups of aliasing memories and vectors.

ghost use Rattle.std.specs.Prelude.{◌≡◌, ◌++◌, ◌<◌, ℕ, List, map, cond, nat_eq, length, All, IfOk, OnOk, MatchOption};
ghost use Rattle.tableau.specs.PoolBranches.{branch_in, IsOver};
ghost use Rattle.tableau.specs.Terms.{AreBranchTerms, AreClassesOf};
ghost use Rattle.tableau.specs.Groups.{AreGroups};
ghost use Rattle.congruence_closure.specs.Known.{BranchClassesData, IsKnown};
ghost use Rattle.base.specs.Lists.{list_in};
ghost use Rattle.base.specs.KeyedPairs.{AreMore};
ghost use Rattle.axiom_strategy.specs.Positions.{read_of, at_group, IsReadAt, AreByClass, AreSpread, ArePositions};

use base::keyed_lists::lists::Lists;
use base::keyed_lists::pairs::Pairs;
use base::memory::NoMemory;
use congruence_closure::branch_classes::BranchClasses;
use fol::operators::Binary;
use std::alloc::Global;
use tableau::branch::PoolBranch;
use term_pool::node::{Node, Two};
use term_pool::pool::Pool;

/// A term, and a group in which something is read at an index of the term's class.
#[derive(Clone, Copy)]
pub(crate) struct Position {
    pub(crate) group: usize,
    pub(crate) term: usize,
}

/// All such terms, and those of each group.
#[derive(Drop)]
pub(crate) struct Positions {
    pub(crate) all: Vec<Position>,
    pub(crate) by_group: Lists,
}

impl Positions {
    // Adds terms of one more class at which something of the group is read.
    fn put(&mut self, group: usize, terms: &[usize]) -> Result<(), NoMemory>
        ensures all { OnOk result (self.new.all.items ≡ self.old.all.items ++ map (at_group group) terms.now) }
        ensures by_group { OnOk result ((k : ℕ) → list_in self.new.by_group k ≡ cond (nat_eq k group) (list_in self.old.by_group k ++ terms.now) (list_in self.old.by_group k)) }
    {
        for term in terms {
            self.all.push(Position { group, term: *term })?;
            self.by_group.add(group, *term)?;
        }
        Ok(())
    }
}

// The memory or vector read at a node, and the index.
fn read_of(node: Node) -> Option<(usize, usize)>
    ensures { result ≡ read_of node }
{
    match node {
        Node::Two(Two::Binary(Binary::Select | Binary::At), from, position) => Some((
            from, position,
        )),
        _ => None,
    }
}

/// The memory or vector read at the node with this number, and the index; `None` if nothing is read there.
pub fn read_at(pool: &Pool, number: usize) -> Option<(usize, usize)>
    requires { number < length pool.now }
    ensures { MatchOption result ((p : ℕ × ℕ) → IsReadAt pool.now number p → ⊥) (IsReadAt pool.now number) }
{
    match pool.node(number) {
        Some(node) => read_of(node),
        None => None,
    }
}

// The terms by class.
fn by_class(alloc: Global, classes: &BranchClasses, candidates: &[usize]) -> Result<Lists, NoMemory>
    requires { All (IsKnown classes.now) candidates.now }
    ensures { IfOk result (λ lists. AreByClass classes.now candidates.now lists) }
{
    let mut lists = Lists::new(alloc);
    for candidate in candidates {
        let class = classes.class(*candidate);
        lists.add(class, *candidate)?;
    }
    Ok(lists)
}

// Adds the terms of a class to the index terms of a group, unless they are added already.
fn spread(
    seen: &mut Pairs,
    positions: &mut Positions,
    lists: &Lists,
    group: usize,
    class: usize,
) -> Result<(), NoMemory>
    ensures seen { OnOk result (AreMore seen.old seen.new (group, class)) }
    ensures spread { OnOk result ((c : BranchClassesData) (candidates : List ℕ) → AreByClass c candidates lists.now → AreSpread c candidates seen.old positions.old.all.items positions.old.by_group → AreSpread c candidates seen.new positions.new.all.items positions.new.by_group) }
{
    let fresh = seen.add(group, class)?;
    if !fresh {
        return Ok(());
    }
    positions.put(group, lists.at(class))?;
    Ok(())
}

/// The candidates at whose classes something is read, by the groups of what is read there. `NoMemory` if memory runs
/// out.
pub(crate) fn find_positions(
    alloc: Global,
    pool: &Pool,
    branch: &PoolBranch,
    classes: &BranchClasses,
    groups: &[usize],
    terms: &[usize],
    candidates: &[usize],
) -> Result<Positions, NoMemory>
    requires over { IsOver pool.now branch.now }
    requires classes { AreClassesOf pool.now branch.now classes.now }
    requires groups { AreGroups pool.now (branch_in pool.now branch.now) groups.now }
    requires terms { AreBranchTerms pool.now (branch_in pool.now branch.now) terms.now }
    requires candidates { All (IsKnown classes.now) candidates.now }
    ensures { IfOk result (λ positions. ArePositions pool.now (branch_in pool.now branch.now) classes.now groups.now candidates.now positions.all.items positions.by_group) }
{
    pool.one_number();
    let lists = by_class(alloc, classes, candidates)?;
    let mut seen = Pairs::new(alloc);
    let all = Vec::new(alloc);
    let by_group = Lists::new(alloc);
    let mut positions = Positions { all, by_group };
    for number in terms {
        let Some((from, position)) = read_at(pool, *number) else {
            continue;
        };
        let group = groups[from];
        let class = classes.class(position);
        spread(&mut seen, &mut positions, &lists, group, class)?;
    }
    Ok(positions)
}

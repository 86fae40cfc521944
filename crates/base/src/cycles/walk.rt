//! A depth-first traversal, which lists the numbers in the order in which they are finished.

ghost use Rattle.std.specs.Prelude.{◌≡◌, ℕ, ◌<◌, [], ◌∷◌, length, reverse, replicate, OnOk, IfOk};
ghost use Rattle.base.specs.declared.cycles.walk.Mark.TheVariants.{Unseen};
ghost use Rattle.base.specs.GraphReachability.{IsWithin};
ghost use Rattle.base.specs.Walking.{IsWalk, IsSeen, KeepsSeen, mark, left};

use crate::cycles::graph::Targets;
use crate::memory::NoMemory;
use std::alloc::Global;

/// The state of a number in the traversal.
#[derive(Clone, Copy)]
pub(crate) enum Mark {
    /// Not reached yet.
    Unseen,
    /// On the path.
    Open,
    /// Finished, at this index of the order.
    Finished(usize),
}

/// A number on the path, and the index of its next edge.
#[derive(Clone, Copy)]
pub(crate) struct Visit {
    pub(crate) node: usize,
    pub(crate) next: usize,
}

/// The marks of all numbers, the finished numbers in order, and the path, whose last number is the one whose edges are
/// followed next.
#[derive(Drop)]
pub(crate) struct Walk {
    pub(crate) marks: Vec<Mark>,
    pub(crate) order: Vec<usize>,
    pub(crate) path: Vec<Visit>,
}

impl Walk {
    /// Follows the next edge of the number that was taken from the end of the path, or finishes that number.
    fn step(&mut self, graph: &[Targets], visit: Visit) -> Result<(), NoMemory>
        requires within { IsWithin graph.now }
        requires walk { IsWalk graph.now self.old.marks.items self.old.order.items (visit ∷ reverse self.old.path.items) }
        ensures walk { OnOk result (IsWalk graph.now self.new.marks.items self.new.order.items (reverse self.new.path.items)) }
        ensures seen { OnOk result (KeepsSeen self.old.marks.items self.new.marks.items) }
        ensures less { OnOk result (left graph.now self.new.marks.items (reverse self.new.path.items) < left graph.now self.old.marks.items (visit ∷ reverse self.old.path.items)) }
    {
        let targets = graph[visit.node].as_slice();
        if visit.next >= targets.len() {
            self.marks[visit.node] = Mark::Finished(self.order.len());
            self.order.push(visit.node)?;
            return Ok(());
        }
        let target = targets[visit.next];
        let next = visit.next + 1;
        self.path.push(Visit {
            node: visit.node,
            next,
        })?;
        if let Mark::Unseen = self.marks[target] {
            self.marks[target] = Mark::Open;
            self.path.push(Visit {
                node: target,
                next: 0,
            })?;
        }
        Ok(())
    }

    /// Finishes `root` and all numbers that it reaches and that are not seen yet.
    fn follow(&mut self, graph: &[Targets], root: usize) -> Result<(), NoMemory>
        requires within { IsWithin graph.now }
        requires walk { IsWalk graph.now self.old.marks.items self.old.order.items [] }
        requires path { self.old.path.items ≡ [] }
        requires root { root < length graph.now }
        requires unseen { mark self.old.marks.items root ≡ Unseen }
        ensures walk { OnOk result (IsWalk graph.now self.new.marks.items self.new.order.items []) }
        ensures path { OnOk result (self.new.path.items ≡ []) }
        ensures root { OnOk result (IsSeen self.new.marks.items root) }
        ensures seen { OnOk result (KeepsSeen self.old.marks.items self.new.marks.items) }
    {
        self.marks[root] = Mark::Open;
        self.path.push(Visit {
            node: root,
            next: 0,
        })?;
        while let Some(visit) = self.path.pop() {
            self.step(graph, visit)?;
        }
        Ok(())
    }
}

/// Returns the mark `Unseen` for each of so many numbers.
fn unseen(alloc: Global, count: usize) -> Result<Vec<Mark>, NoMemory>
    ensures { IfOk result (λ marks. marks.items ≡ replicate count Unseen) }
{
    let mut marks = Vec::new(alloc);
    for _ in 0..count {
        marks.push(Mark::Unseen)?;
    }
    Ok(marks)
}

/// Returns the traversal in which all numbers are finished.
pub(crate) fn walk_all(alloc: Global, graph: &[Targets]) -> Result<Walk, NoMemory>
    requires { IsWithin graph.now }
    ensures walk { IfOk result (λ walk. IsWalk graph.now walk.marks.items walk.order.items []) }
    ensures seen { IfOk result (λ walk. (i : ℕ) → i < length graph.now → IsSeen walk.marks.items i) }
{
    let mut walk = Walk {
        marks: unseen(alloc, graph.len())?,
        order: Vec::new(alloc),
        path: Vec::new(alloc),
    };
    for root in 0..graph.len() {
        if let Mark::Unseen = walk.marks[root] {
            walk.follow(graph, root)?;
        }
    }
    Ok(walk)
}

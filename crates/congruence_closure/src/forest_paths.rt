//! Paths of edges in the proof forest.

ghost use Rattle.std.specs.Prelude.{◌≡◌, ◌++◌, length, take, OnOk, IfOk, MatchOption};
ghost use Rattle.congruence_closure.specs.Links.{Linked};
ghost use Rattle.congruence_closure.specs.Histories.{IsHistory};
ghost use Rattle.congruence_closure.specs.Paths.{IsPath, IsSplit, crossing, CanTake, IsTurn};

use crate::classes::link::Link;
use crate::proof_forest::{History, Join};
use base::memory::NoMemory;
use std::alloc::Global;

/// A pair of numbers to be connected by edges before this one.
#[derive(Clone, Copy)]
pub struct Span {
    pub from: usize,
    pub to: usize,
    /// An upper bound: the numbers of the edges are below it.
    pub before: usize,
}

// A remaining task.
#[derive(Clone, Copy)]
pub(crate) enum Task {
    Cross(Span),
    // To pass one edge.
    Pass(Join),
}

// The edge that joined the ends of a span; none if the ends are equal.
fn split(history: &History, links: &[Link], span: Span) -> Option<Join>
    requires history { IsHistory links.now (length links.now) history.now }
    requires linked { Linked (take span.before links.now) span.from span.to }
    ensures { MatchOption result (span.from ≡ span.to) (IsSplit links.now span) }
{
    if span.from == span.to {
        return None;
    }
    history.join(links, span.from, span.to)
}

// Replaces a span by the part up to the edge, the edge, and the part from it on. The last task comes first.
fn cross(tasks: &mut Vec<Task>, span: Span, join: Join) -> Result<(), NoMemory>
    ensures { OnOk result (tasks.new.items ≡ tasks.old.items ++ crossing span join) }
{
    tasks.push(Task::Cross(Span {
        from: join.far,
        to: span.to,
        before: join.link,
    }))?;
    tasks.push(Task::Pass(join))?;
    tasks.push(Task::Cross(Span {
        from: span.from,
        to: join.near,
        before: join.link,
    }))?;
    Ok(())
}

// Does a task, or replaces it by its subtasks at the end of the remaining ones.
fn take_turn(
    history: &History,
    links: &[Link],
    path: &mut Vec<Join>,
    tasks: &mut Vec<Task>,
    task: Task,
) -> Result<(), NoMemory>
    requires history { IsHistory links.now (length links.now) history.now }
    requires linked { CanTake links.now task }
    ensures { OnOk result (IsTurn links.now task path.old.items tasks.old.items path.new.items tasks.new.items) }
{
    match task {
        Task::Pass(join) => {
            path.push(join)?;
            Ok(())
        }
        Task::Cross(span) => match split(history, links, span) {
            Some(join) => {
                cross(tasks, span, join)?;
                Ok(())
            }
            None => Ok(()),
        },
    }
}

/// Returns the edges that lead from one end of a span to the other, each with the end at which it is entered and the
/// one at which it is left.
pub fn path(
    alloc: Global,
    history: &History,
    links: &[Link],
    span: Span,
) -> Result<Vec<Join>, NoMemory>
    requires history { IsHistory links.now (length links.now) history.now }
    requires linked { Linked (take span.before links.now) span.from span.to }
    ensures { IfOk result (λ path. IsPath links.now span.before span.from path.items span.to) }
{
    let mut path = Vec::new(alloc);
    let mut tasks = Vec::new(alloc);
    tasks.push(Task::Cross(span))?;
    while let Some(task) = tasks.pop() {
        take_turn(history, links, &mut path, &mut tasks, task)?;
    }
    Ok(path)
}

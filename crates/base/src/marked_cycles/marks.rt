//! The components that contain a marked edge.

ghost use Rattle.std.specs.Prelude.{◌≡◌, ℕ, ◌<◌, ◌||◌, All, false, length, IfOk, slice_index, slice_index_or};
ghost use Rattle.std.specs.List.{list_any};
ghost use Rattle.base.specs.MarkedCycles.{IsWithin};
ghost use Rattle.base.specs.Graphs.{marks_root};

use crate::marked_cycles::edge::MarkedEdge;
use crate::memory::NoMemory;
use std::alloc::Global;

/// Marks the root of the component that contains the edge, if the edge is marked and lies inside a component.
fn mark(marks: &mut Vec<bool>, roots: &[usize], edge: MarkedEdge)
    requires within { IsWithin (length roots.now) edge }
    requires root { (i : ℕ) → i < length roots.now → slice_index roots.now i < length marks.old.items }
    ensures len { length marks.new.items ≡ length marks.old.items }
    ensures marked { (r : ℕ) → r < length marks.old.items → slice_index_or marks.new.items r false ≡ (slice_index_or marks.old.items r false || marks_root roots.now r edge) }
{
    let root = roots[edge.from];
    if edge.is_marked && roots[edge.to] == root {
        marks[root] = true;
    }
}

/// Returns for each of so many numbers whether it is the root of a component that contains a marked edge.
pub(crate) fn marked_roots(
    alloc: Global,
    roots: &[usize],
    edges: &[MarkedEdge],
) -> Result<Vec<bool>, NoMemory>
    requires within { All (IsWithin (length roots.now)) edges.now }
    requires root { (i : ℕ) → i < length roots.now → slice_index roots.now i < length roots.now }
    ensures len { IfOk result (λ marks. length marks.items ≡ length roots.now) }
    ensures marked { IfOk result (λ marks. (r : ℕ) → r < length roots.now → slice_index_or marks.items r false ≡ list_any (marks_root roots.now r) edges.now) }
{
    let mut marks = vec![in alloc; false; roots.len()]?;
    for edge in edges {
        mark(&mut marks, roots, *edge);
    }
    Ok(marks)
}

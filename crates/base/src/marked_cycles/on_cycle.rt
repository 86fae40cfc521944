//! The numbers that are on a cycle with a marked edge.

ghost use Rattle.std.specs.Prelude.{◌≡◌, ◌↔◌, ℕ, ◌<◌, All, false, length, IsTrue, IfOk, slice_index, slice_index_or};
ghost use Rattle.base.specs.MarkedCycles.{IsOnMarkedCycle, IsWithin};

use crate::cycles::components::component_roots;
use crate::marked_cycles::edge::{MarkedEdge, graph_of};
use crate::marked_cycles::marks::marked_roots;
use crate::memory::NoMemory;
use std::alloc::Global;

/// Returns for each number whether its root is marked.
fn of_roots(alloc: Global, roots: &[usize], marks: &[bool]) -> Result<Vec<bool>, NoMemory>
    requires { (i : ℕ) → i < length roots.now → slice_index roots.now i < length marks.now }
    ensures len { IfOk result (λ found. length found.items ≡ length roots.now) }
    ensures found { IfOk result (λ found. (i : ℕ) → i < length roots.now → slice_index_or found.items i false ≡ slice_index_or marks.now (slice_index roots.now i) false) }
{
    let mut found = Vec::new(alloc);
    for root in roots {
        found.push(marks[*root])?;
    }
    Ok(found)
}

/// Returns for each of so many numbers whether it is on a cycle with a marked edge. The time is linear in the numbers
/// and edges.
pub fn on_marked_cycle(
    alloc: Global,
    count: usize,
    edges: &[MarkedEdge],
) -> Result<Vec<bool>, NoMemory>
    requires { All (IsWithin count) edges.now }
    ensures len { IfOk result (λ found. length found.items ≡ count) }
    ensures found { IfOk result (λ found. (i : ℕ) → i < count → IsTrue (slice_index_or found.items i false) ↔ IsOnMarkedCycle edges.now i) }
{
    let graph = graph_of(alloc, count, edges)?;
    let roots = component_roots(alloc, &graph)?;
    let marks = marked_roots(alloc, roots.as_slice(), edges)?;
    of_roots(alloc, roots.as_slice(), marks.as_slice())
}

//! The vertices of a graph that reach marked ones.

ghost use Rattle.std.specs.Prelude.{◌↔◌, ◌<◌, ℕ, All, false, IsTrue, IfOk, length, slice_index_or};
ghost use Rattle.base.specs.MarkedCycles.{IsWithin};
ghost use Rattle.type_check.specs.Leading.{AreUnmarked, HasLast, LeadsToMark};

use base::marked_cycles::edge::MarkedEdge;
use base::marked_cycles::on_cycle::on_marked_cycle;
use base::memory::NoMemory;
use std::alloc::Global;

/// The edges, with an edge from each marked vertex to an additional last one, and a marked edge from that one to each
/// vertex.
fn with_last(
    alloc: Global,
    edges: &[MarkedEdge],
    marks: &[bool],
) -> Result<Vec<MarkedEdge>, NoMemory>
    ensures { IfOk result (λ all. HasLast edges.now marks.now all.items (length marks.now) (length marks.now)) }
{
    let last = marks.len();
    let mut all = Vec::new(alloc);
    for edge in edges {
        all.push(*edge)?;
    }
    for number in 0..last {
        all.push(MarkedEdge {
            from: last,
            to: number,
            is_marked: true,
        })?;
        if marks[number] {
            all.push(MarkedEdge {
                from: number,
                to: last,
                is_marked: false,
            })?;
        }
    }
    Ok(all)
}

/// Decides for each vertex whether it reaches a marked one, possibly itself. The time is linear in the vertices and
/// edges.
pub(crate) fn leading_to(
    alloc: Global,
    edges: &[MarkedEdge],
    marks: &[bool],
) -> Result<Vec<bool>, NoMemory>
    requires within { All (IsWithin (length marks.now)) edges.now }
    requires unmarked { AreUnmarked edges.now }
    ensures { IfOk result (λ found. (n : ℕ) → n < length marks.now → IsTrue (slice_index_or found.items n false) ↔ LeadsToMark edges.now marks.now n) }
{
    let all = with_last(alloc, edges, marks)?;
    on_marked_cycle(alloc, marks.len() + 1, &all)
}

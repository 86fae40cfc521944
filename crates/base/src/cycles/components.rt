//! Strongly connected components.

ghost use Rattle.std.specs.Prelude.{◌≡◌, ℕ, ◌<◌, length, slice_index, IfOk};
ghost use Rattle.base.specs.GraphReachability.{AreRoots};
ghost use Rattle.base.specs.Labelling.{label, root_of};

use crate::cycles::graph::Graph;
use crate::cycles::roots::label_all;
use crate::cycles::walk::walk_all;
use crate::memory::NoMemory;
use std::alloc::Global;

/// Returns the number at the index that is the label; 0 without a label.
fn root_of(order: &[usize], label: Option<usize>) -> usize
    ensures { result ≡ root_of order.now label }
{
    match label {
        Some(position) if position < order.len() => order[position],
        _ => 0,
    }
}

/// Returns for each number the one at the index that is its label.
fn roots_of(
    alloc: Global,
    labels: &[Option<usize>],
    order: &[usize],
) -> Result<Vec<usize>, NoMemory>
    ensures len { IfOk result (λ roots. length roots.items ≡ length labels.now) }
    ensures roots { IfOk result (λ roots. (i : ℕ) → i < length labels.now → slice_index roots.items i ≡ root_of order.now (label labels.now i)) }
{
    let mut roots = Vec::new(alloc);
    for label in labels {
        roots.push(root_of(order, *label))?;
    }
    Ok(roots)
}

/// Returns for each number the root of its strongly connected component: one of the numbers in it, the same for all of
/// them. The time is linear in the numbers and edges.
pub fn component_roots(alloc: Global, graph: &Graph) -> Result<Vec<usize>, NoMemory>
    ensures { IfOk result (λ roots. AreRoots graph.now roots.items) }
{
    let (targets, sources) = graph.sides();
    let walk = walk_all(alloc, targets)?;
    let labels = label_all(alloc, sources, walk.order.as_slice())?;
    roots_of(alloc, labels.as_slice(), walk.order.as_slice())
}

//! The numbers that are on a cycle.

ghost use Rattle.std.specs.Prelude.{◌≡◌, ℕ, ◌<◌, ◌↔◌, Contains, length, slice_index, IsTrue, IfOk, Option};
ghost use Rattle.base.specs.GraphReachability.{IsOnCycle};
ghost use Rattle.base.specs.Labelling.{label};

use crate::cycles::graph::Graph;
use crate::cycles::roots::label_all;
use crate::cycles::walk::walk_all;
use crate::memory::NoMemory;
use std::alloc::Global;

/// Decides whether one of these numbers has this label.
fn is_label_among(targets: &[usize], labels: &[Option<usize>], own: Option<usize>) -> bool
    requires { (k : ℕ) → k < length targets.now → slice_index targets.now k < length labels.now }
    ensures { IsTrue result ↔ ((k : ℕ) × (k < length targets.now) × (label labels.now (slice_index targets.now k) ≡ own)) }
{
    for target in targets {
        if labels[*target] == own {
            return true;
        }
    }
    false
}

/// Returns the numbers that are on a cycle: all of them, and no others.
pub fn all_on_cycle(alloc: Global, graph: &Graph) -> Result<Vec<usize>, NoMemory>
    ensures { IfOk result (λ found. (i : ℕ) → Contains found.items i ↔ IsOnCycle graph.now i) }
{
    let (targets, sources) = graph.sides();
    let walk = walk_all(alloc, targets)?;
    let labels = label_all(alloc, sources, walk.order.as_slice())?;
    let mut found = Vec::new(alloc);
    for i in 0..targets.len() {
        if is_label_among(targets[i].as_slice(), labels.as_slice(), labels[i]) {
            found.push(i)?;
        }
    }
    Ok(found)
}

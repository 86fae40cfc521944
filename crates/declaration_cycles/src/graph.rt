//! The numbers on cycles of edges.

ghost use Rattle.std.specs.Prelude.{◌≡◌, ◌↔◌, ℕ, All, Contains, length, IfOk};
ghost use Rattle.declaration_cycles.specs.Leading.{LeadsBack};
ghost use Rattle.declaration_cycles.specs.Within.{HasEdgesOf, IsWithin};

use crate::edges::Edge;
use base::cycles::graph::Graph;
use base::cycles::on_cycle::all_on_cycle;
use base::memory::NoMemory;
use std::alloc::Global;

/// Returns the graph over the numbers below `count` with these edges.
fn graph_of(alloc: Global, count: usize, edges: &[Edge]) -> Result<Graph, NoMemory>
    requires { All (IsWithin count) edges.now }
    ensures edges { IfOk result (λ graph. HasEdgesOf graph edges.now) }
    ensures count { IfOk result (λ graph. length graph ≡ count) }
{
    let mut graph = Graph::new(alloc, count)?;
    for edge in edges {
        graph.add_edge(edge.from, edge.to)?;
    }
    Ok(graph)
}

/// Returns exactly the numbers that lead back to themselves over these edges.
pub(crate) fn all_back(alloc: Global, count: usize, edges: &[Edge]) -> Result<Vec<usize>, NoMemory>
    requires { All (IsWithin count) edges.now }
    ensures { IfOk result (λ found. (i : ℕ) → Contains found.items i ↔ LeadsBack edges.now i) }
{
    let graph = graph_of(alloc, count, edges)?;
    all_on_cycle(alloc, &graph)
}

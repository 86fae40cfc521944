//! Edges, some of which are marked.

ghost use Rattle.std.specs.Prelude.{◌≡◌, [], All, length, IfOk};
ghost use Rattle.base.specs.MarkedCycles.{IsWithin};
ghost use Rattle.base.specs.Graphs.{HasEdgesOf};

use crate::cycles::graph::Graph;
use crate::memory::NoMemory;
use std::alloc::Global;

/// An edge between two numbers.
#[derive(Clone, Copy, Debug, PartialEq, Eq)]
pub struct MarkedEdge {
    pub from: usize,
    pub to: usize,
    pub is_marked: bool,
}

/// Returns the graph with so many numbers and these edges.
pub(crate) fn graph_of(alloc: Global, count: usize, edges: &[MarkedEdge]) -> Result<Graph, NoMemory>
    requires { All (IsWithin count) edges.now }
    ensures edges { IfOk result (λ graph. HasEdgesOf graph edges.now) }
    ensures count { IfOk result (λ graph. length graph ≡ count) }
{
    let mut graph = Graph::new(alloc, count)?;
    for edge in edges {
        graph.add_edge(edge.from, edge.to)?;
    }
    Ok(graph)
}

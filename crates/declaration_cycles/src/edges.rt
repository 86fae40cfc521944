//! Dependencies between declarations, by index.

ghost use Rattle.std.specs.Prelude.{◌≡◌, ◌++◌, OnOk};
ghost use Rattle.declaration_cycles.specs.Edges.{edge, edge_apart};

use base::memory::NoMemory;

/// A dependency of one declaration on another one of its kind, by their indices in their table.
#[derive(Clone, Copy, Debug, PartialEq, Eq)]
pub struct Edge {
    pub from: usize,
    pub to: usize,
}

/// Appends an edge between two indices, if both are present.
pub(crate) fn push_edge(
    from: Option<usize>,
    to: Option<usize>,
    into: &mut Vec<Edge>,
) -> Result<(), NoMemory>
    ensures { OnOk result (into.new.items ≡ into.old.items ++ edge from to) }
{
    if let (Some(from), Some(to)) = (from, to) {
        into.push(Edge { from, to })?;
    }
    Ok(())
}

/// Appends an edge between two indices, if both are present and differ.
pub(crate) fn push_edge_apart(
    from: Option<usize>,
    to: Option<usize>,
    into: &mut Vec<Edge>,
) -> Result<(), NoMemory>
    ensures { OnOk result (into.new.items ≡ into.old.items ++ edge_apart from to) }
{
    if from == to {
        return Ok(());
    }
    push_edge(from, to, into)
}

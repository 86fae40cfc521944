//! The history of the congruence classes of a branch.

ghost use Rattle.std.specs.Prelude.{length, IfOk};
ghost use Rattle.congruence_closure.specs.Histories.{IsHistory};

use base::memory::NoMemory;
use congruence_closure::branch_classes::BranchClasses;
use congruence_closure::proof_forest::History;
use std::alloc::Global;

/// Returns the history of the merges of a branch's congruence classes. The running time is linear in the number of
/// proof forest edges. `NoMemory` if memory runs out.
pub fn history_of(alloc: Global, classes: &BranchClasses) -> Result<History, NoMemory>
    ensures { IfOk result (IsHistory classes.now.classes.links (length classes.now.classes.links)) }
{
    classes.shown();
    let nodes = classes.nodes();
    let links = classes.links();
    let history = History::of_links(alloc, links, nodes.len())?;
    Ok(history)
}

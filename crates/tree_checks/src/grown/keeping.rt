//! What the checks of single applications keep while the branch and the pool are extended.

ghost use Rattle.std.specs.Prelude.{List};
ghost use Rattle.term_pool.specs.declared.node.Node.{Node};
ghost use Rattle.tableau.specs.declared.entry.PoolEntry.{PoolEntry};
ghost use Rattle.tree_checks.specs.Kept.{IsKept};

use ematching::heads::HeadIndex;
use ematching::instances::quantifiers::QuantifierFree;
use std::alloc::Global;
use tableau::names::variables::Variables;
use tableau::state::BranchState;

/// The variables of the branch, its classes when last updated, and the head symbols and quantifiers of the pool's
/// nodes.
#[derive(Drop)]
pub struct Kept {
    pub variables: Variables,
    // Only its classes are used.
    pub state: BranchState,
    pub heads: HeadIndex,
    pub quantifiers: QuantifierFree,
}

/// The state before any check.
pub fn nothing_kept(alloc: Global) -> Kept
    ensures { (ns : List Node) (es : List PoolEntry) → IsKept ns es result }
{
    Kept {
        variables: Variables::new(alloc),
        state: BranchState::new(alloc),
        heads: HeadIndex::new(alloc),
        quantifiers: QuantifierFree::new(alloc),
    }
}

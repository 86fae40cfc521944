//! A law of states when the pool is extended.

ghost use Rattle.std.specs.Prelude.{List};
ghost use Rattle.term_pool.specs.Pools.{Extends};
ghost use Rattle.term_pool.specs.declared.node.Node.{Node};
ghost use Rattle.tableau.specs.States.{IsState};
ghost use Rattle.tableau.specs.declared.state.BranchState.{BranchState};

/// The state of a branch over a pool is one over each pool that extends it.
pub fn state_stays()
    ensures { (ns ms : List Node) (s : BranchState) → Extends ns ms → IsState ns s → IsState ms s }
{}

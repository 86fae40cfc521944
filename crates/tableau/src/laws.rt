//! A law of branches over a pool that is extended.

ghost use Rattle.std.specs.Prelude.{◌≡◌, List};
ghost use Rattle.term_pool.specs.Pools.{Extends};
ghost use Rattle.term_pool.specs.declared.node.Node.{Node};
ghost use Rattle.tableau.specs.PoolBranches.{BranchData, branch_in, IsOver};

/// A branch over a pool is one over each pool that extends it, with the same formulas.
pub fn branch_stays()
    ensures over { (ns ms : List Node) (d : BranchData) → Extends ns ms → IsOver ns d → IsOver ms d }
    ensures says { (ns ms : List Node) (d : BranchData) → Extends ns ms → IsOver ns d → branch_in ms d ≡ branch_in ns d }
{}

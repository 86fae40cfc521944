//! A law of the index by head symbol when its pool is extended.

ghost use Rattle.std.specs.Prelude.{List};
ghost use Rattle.term_pool.specs.Pools.{Extends};
ghost use Rattle.term_pool.specs.declared.node.Node.{Node};
ghost use Rattle.ematching.specs.Heads.{IsIndex, IsIndexOf};
ghost use Rattle.ematching.specs.declared.heads.HeadIndex.{HeadIndex};

/// The index of a pool is one of a prefix of each pool that extends it.
pub fn index_stays()
    ensures { (ns ms : List Node) (d : HeadIndex) → Extends ns ms → IsIndexOf ns d → IsIndex ms d }
{}

//! Laws of names when the pool is extended and entries are added: a search continues at its mark, and does not revisit
//! nodes and entries.

ghost use Rattle.std.specs.Prelude.{ℕ, ◌≤◌, List, ◌++◌, length};
ghost use Rattle.term_pool.specs.Pools.{Extends};
ghost use Rattle.term_pool.specs.declared.node.Node.{Node};
ghost use Rattle.certificates.specs.BranchesBranch.{Branch};
ghost use Rattle.tableau.specs.PoolBranches.{BranchData, IsOver};
ghost use Rattle.tableau.specs.declared.entry.PoolEntry.{PoolEntry};
ghost use Rattle.tableau.specs.Variables.{VariablesData, AreAbove};
ghost use Rattle.tableau.specs.Names.{NoNameBefore};

/// Added entries make no name at earlier ones due.
pub fn names_stay_done()
    ensures { (b more : Branch) (count : ℕ) → count ≤ length b → NoNameBefore b count → NoNameBefore (b ++ more) count }
{}

/// The bounds of variables remain valid for each pool that extends the first one, and for a branch with further
/// entries.
pub fn variables_stay()
    ensures grown { (ns ms : List Node) (d : BranchData) (v : VariablesData) → Extends ns ms → IsOver ns d → AreAbove ns d.entries v → AreAbove ms d.entries v }
    ensures longer { (ns : List Node) (es more : List PoolEntry) (v : VariablesData) → AreAbove ns es v → AreAbove ns (es ++ more) v }
{}

//! Values of a branch while its pool is extended.

ghost use Rattle.std.specs.Prelude.{◌↔◌, ℕ, List};
ghost use Rattle.fol.specs.FormulaData.{TermData};
ghost use Rattle.term_pool.specs.Pools.{IsOneNumber, Extends};
ghost use Rattle.term_pool.specs.declared.node.Node.{Node};
ghost use Rattle.tableau.specs.PoolBranches.{BranchData, branch_in, IsOver};
ghost use Rattle.row_reasoning.specs.Rows.{AreNames};
ghost use Rattle.search.specs.Decisions.{IsValued};
ghost use Rattle.search.specs.declared.values.OpenValues.{OpenValues};
ghost use Rattle.step_checks.specs.Rows.{IsMet};

/// Representatives of a branch's classes over a pool are also representatives over each extension of the pool, without
/// additions: all terms of the branch have their numbers in the first pool.
pub fn names_stay()
    ensures { (ns ms : List Node) (d : BranchData) (class : TermData → ℕ) (names : List ℕ) → Extends ns ms → IsOneNumber ms → IsOver ns d → (AreNames ns (branch_in ns d) class names ↔ AreNames ms (branch_in ms d) class names) }
{}

/// The same holds for values that satisfy the rows of a branch, and for those of a branch.
pub fn values_stay()
    ensures met { (ns ms : List Node) (d : BranchData) (v : OpenValues) → Extends ns ms → IsOneNumber ms → IsOver ns d → (IsMet ns (branch_in ns d) v ↔ IsMet ms (branch_in ms d) v) }
    ensures valued { (ns ms : List Node) (d : BranchData) (v : OpenValues) → Extends ns ms → IsOneNumber ms → IsOver ns d → (IsValued ns (branch_in ns d) v ↔ IsValued ms (branch_in ms d) v) }
{}

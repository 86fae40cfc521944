//! What stays right while a pool is extended.

ghost use Rattle.std.specs.Prelude.{ℕ, List};
ghost use Rattle.fol.specs.declared.shapes.Shape.{Shape};
ghost use Rattle.fol.specs.FormulaData.{FormulaData};
ghost use Rattle.term_pool.specs.Pools.{Extends};
ghost use Rattle.term_pool.specs.declared.node.Node.{Node};
ghost use Rattle.search.specs.Trees.{IsTree};
ghost use Rattle.search.specs.declared.trees.tree.SearchTree.{SearchTree};

/// A search tree over a pool is also one over each extension of the pool.
pub fn trees_stay()
    ensures { (shapes : List Shape) (p : FormulaData) (spent : ℕ) (ns ms : List Node) (tree : SearchTree) → Extends ns ms → IsTree shapes p spent ns tree → IsTree shapes p spent ms tree }
{}

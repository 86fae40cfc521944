//! Laws of the classes of nodes and those of a branch, each the contract of a function that does nothing.

ghost use Rattle.std.specs.Prelude.{◌≡◌, ◌↔◌, ℕ, List, [], Some, slice_get};
ghost use Rattle.fol.specs.FormulaData.{TermData, FormulaData};
ghost use Rattle.term_pool.specs.Items.{TermItem, FormulaItem};
ghost use Rattle.term_pool.specs.Pools.{Extends};
ghost use Rattle.term_pool.specs.declared.node.Node.{Node};
ghost use Rattle.congruence_closure.specs.Congruence.{Congruent};
ghost use Rattle.congruence_closure.specs.States.{ClassesData, AreClasses};
ghost use Rattle.certificates.specs.BranchesBranch.{Branch, Says};
ghost use Rattle.certificates.specs.Joined.{Joined, IsAlike};
ghost use Rattle.congruence_closure.specs.Nodes.{IsNode, AreNodes, AreEquations};
ghost use Rattle.congruence_closure.specs.Known.{BranchClassesData, IsKnown, IsOuterPart, IsOver, AreInEntries};

/// Nodes of two terms are congruent exactly when the terms are joined on the branch whose equations were added.
pub fn congruent_as_joined()
    ensures { (c : ClassesData) (b : Branch) (i j : ℕ) (t u : TermData) → AreClasses c.nodes c.equations c.names c.links → AreNodes c.nodes → AreEquations c.nodes c.equations (Says b) → IsNode c.nodes i [] (TermItem t) → IsNode c.nodes j [] (TermItem u) → Congruent c.nodes c.equations i j ↔ Joined b t u }
{}

/// Nodes of two formulas are congruent exactly when the formulas are equal up to the classes of the branch.
pub fn congruent_as_alike()
    ensures { (c : ClassesData) (b : Branch) (i j : ℕ) (p q : FormulaData) → AreClasses c.nodes c.equations c.names c.links → AreNodes c.nodes → AreEquations c.nodes c.equations (Says b) → IsNode c.nodes i [] (FormulaItem p) → IsNode c.nodes j [] (FormulaItem q) → Congruent c.nodes c.equations i j ↔ IsAlike b [] p q }
{}

/// An item that occurs outside quantifiers in a known one is known.
pub fn part_known()
    ensures { (pool : List Node) (d : BranchClassesData) (number part : ℕ) (n : Node) → IsOver pool d → IsKnown d number → slice_get pool number ≡ Some n → IsOuterPart part n → IsKnown d part }
{}

/// A number that is known over a pool remains known when nodes are added to the pool.
pub fn known_of_more()
    ensures { (pool more : List Node) (d : BranchClassesData) → Extends pool more → IsOver pool d → IsOver more d }
{}

/// An item that occurs in entries of a pool still does when nodes are added to the pool.
pub fn inside_of_more()
    ensures { (pool more : List Node) (d : BranchClassesData) → Extends pool more → AreInEntries pool d → AreInEntries more d }
{}

//! What the absence of due instances means for the first steps of a search, and which instances lists of triggers
//! trigger.

ghost use Rattle.std.specs.Prelude.{◌≡◌, ◌↔◌, ℕ, List, [], length, All};
ghost use Rattle.fol.specs.declared.shapes.Shape.{Shape};
ghost use Rattle.term_pool.specs.Pools.{IsOneNumber};
ghost use Rattle.term_pool.specs.declared.node.Node.{Node};
ghost use Rattle.certificates.specs.BranchesBranch.{Branch};
ghost use Rattle.tableau.specs.PoolBranches.{BranchData, branch_in, IsOver};
ghost use Rattle.tableau.specs.Terms.{AreBranchTerms};
ghost use Rattle.axiom_strategy.specs.declared.askers.Asker.{Asker};
ghost use Rattle.axiom_strategy.specs.declared.due.AxiomStep.{AxiomStep};
ghost use Rattle.axiom_strategy.specs.declared.typings.Typing.{Typing};
ghost use Rattle.axiom_strategy.specs.Due.{NoAxiom, IsAxiomStep, NothingOfRanges};
ghost use Rattle.axiom_strategy.specs.Typings.{AreTypings};
ghost use Rattle.axiom_strategy.specs.Beside.{AreTypeAskers};
ghost use Rattle.axiom_strategy.specs.Families.{AskAll, AsksOfTypes};
ghost use Rattle.axiom_strategy.specs.Listing.{AreDueInstances};

use crate::due::WantedAxioms;

/// If no instance of a range axiom is due, no range axiom is due, neither by the table nor as a decision.
pub fn ranges_come_first()
    ensures { (shapes : List Shape) (b : Branch) → NoAxiom shapes b WantedAxioms.Ranges → NothingOfRanges shapes b }
{}

/// The triggers by types, over the terms of a branch and the types that its entries give or deny, are on the branch.
/// They trigger all instances that are triggered on every branch, by such a type, or by such a type beside a term.
pub fn types_ask()
    ensures { (ns : List Node) (d : BranchData) (terms : List ℕ) (typings : List Typing) (askers : List Asker) → IsOneNumber ns → IsOver ns d → AreBranchTerms ns (branch_in ns d) terms → AreTypings ns (branch_in ns d) (length d.entries) typings → AreTypeAskers ns terms typings askers → AskAll ns (branch_in ns d) askers (AsksOfTypes (branch_in ns d)) }
{}

/// Each instance in the list of all due instances is due, and the list is empty exactly if none is due.
pub fn list_is_exact()
    ensures due { (ns : List Node) (shapes : List Shape) (b : Branch) (steps : List AxiomStep) → AreDueInstances ns shapes b steps → All (IsAxiomStep ns shapes b WantedAxioms.All) steps }
    ensures none { (ns : List Node) (shapes : List Shape) (b : Branch) (steps : List AxiomStep) → AreDueInstances ns shapes b steps → (steps ≡ []) ↔ NoAxiom shapes b WantedAxioms.All }
{}

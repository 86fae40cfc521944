//! What the grounds of a bound show.

ghost use Rattle.std.specs.Prelude.{ℕ, ℤ, pos, ◌+ℤ◌, List};
ghost use Rattle.base.specs.TypeData.{NumType};
ghost use Rattle.fol.specs.declared.shapes.Shape.{Shape};
ghost use Rattle.fol.specs.FormulaData.{TermData, NumTerm, LeFormula, IsFormula};
ghost use Rattle.step_checks.specs.declared.elimination.GivenElimination.{GivenElimination};
ghost use Rattle.term_pool.specs.declared.node.Node.{Node};
ghost use Rattle.certificates.specs.BranchesBranch.{Branch, Says};
ghost use Rattle.certificates.specs.Due.{IsShallow};
ghost use Rattle.certificates.specs.ProofTraces.{BoundDue};
ghost use Rattle.search.specs.declared.values.OpenValues.{OpenValues};
ghost use Rattle.tree_checks.specs.Bounds.{IsBoundBy};

/// A bound with valid grounds is due if an entry states that the term is a whole number and the bound's second case is
/// not too deep.
pub fn bounds_are_due()
    ensures { (shapes : List Shape) (ns : List Node) (b : Branch) (i : ℕ) (t : TermData) (k : ℤ) (v : OpenValues) (given : GivenElimination) → IsBoundBy shapes ns b t k v given → Says b i (IsFormula NumType t) → IsShallow (LeFormula (NumTerm (k +ℤ pos 1)) t) → BoundDue shapes b i t k }
{}

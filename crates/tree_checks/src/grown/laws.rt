//! Branches that a trace reaches are grown.

ghost use Rattle.std.specs.Prelude.{List};
ghost use Rattle.fol.specs.FormulaData.{FormulaData};
ghost use Rattle.fol.specs.declared.shapes.Shape.{Shape};
ghost use Rattle.certificates.specs.BranchesBranch.{Branch};
ghost use Rattle.certificates.specs.ProofTraces.{Application, IsReached};
ghost use Rattle.tree_checks.specs.Grown.{IsGrown};

/// The branch that a trace with due applications reaches is grown from the negation of its formula: the applications on
/// it and on its earlier states are its steps, and those on other branches are left out.
pub fn reached_branches_are_grown()
    ensures { (shapes : List Shape) (p : FormulaData) (applications : List Application) (b : Branch) → IsReached shapes p applications b → IsGrown shapes p b }
{}

//! Each due rule application is allowed.

ghost use Rattle.std.specs.Prelude.{List};
ghost use Rattle.fol.specs.FormulaData.{TermData, FormulaData};
ghost use Rattle.fol.specs.declared.shapes.Shape.{Shape};
ghost use Rattle.axioms.specs.Axioms.{IsAxiom};
ghost use Rattle.axioms.specs.declared.axiom.Axiom.{Axiom};
ghost use Rattle.certificates.specs.Closes.{Certifies};
ghost use Rattle.certificates.specs.BranchesBranch.{Branch};
ghost use Rattle.certificates.specs.Moves.{all_moves};
ghost use Rattle.certificates.specs.ProofTraces.{Application, IsProof};
ghost use Rattle.certificates.specs.Table.{Asks};

/// Each formula in the table of axioms is an instance of the axiom in its row.
pub fn triggered_are_axioms()
    ensures { (shapes : List Shape) (b : Branch) (name : Axiom) (ts : List TermData) (p : FormulaData) → Asks shapes b name ts p → IsAxiom shapes name p }
{}

/// The moves of a due trace that leaves no branch open are a certificate of its formula.
pub fn proofs_are_certified()
    ensures { (shapes : List Shape) (p : FormulaData) (applications : List Application) → IsProof shapes p applications → Certifies shapes (all_moves applications) p }
{}

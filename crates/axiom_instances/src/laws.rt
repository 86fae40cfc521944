//! The table of axioms by their triggers agrees with the table of the axioms that are due on a branch.

ghost use Rattle.std.specs.Prelude.{◌↔◌, List};
ghost use Rattle.fol.specs.FormulaData.{TermData, FormulaData};
ghost use Rattle.fol.specs.declared.shapes.Shape.{Shape};
ghost use Rattle.axioms.specs.declared.axiom.Axiom.{Axiom};
ghost use Rattle.certificates.specs.BranchesBranch.{Branch};
ghost use Rattle.certificates.specs.Table.{Asks};
ghost use Rattle.axiom_instances.specs.Present.{IsTriggeredOn};

/// An instance is triggered on a branch exactly when a term, a type or a read on it triggers it.
pub fn triggered_by_what_stands()
    ensures { (shapes : List Shape) (b : Branch) (name : Axiom) (ts : List TermData) (p : FormulaData) → Asks shapes b name ts p ↔ IsTriggeredOn shapes b name ts p }
{}

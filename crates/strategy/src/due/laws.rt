//! What is not due if neither the table of axioms nor a decision triggers it.

ghost use Rattle.std.specs.Prelude.{List};
ghost use Rattle.fol.specs.declared.shapes.Shape.{Shape};
ghost use Rattle.certificates.specs.BranchesBranch.{Branch};
ghost use Rattle.axiom_strategy.specs.Due.{NoAxiom};
ghost use Rattle.axiom_strategy.specs.Orders.{NoOrder};
ghost use Rattle.strategy.specs.Plain.{NoAxiomDue};

use axiom_strategy::due::WantedAxioms;

/// If no instance of an axiom of the table is due, and no decision on two numbers, then no axiom instance is due.
pub fn no_axiom_is_due()
    ensures { (shapes : List Shape) (b : Branch) → NoAxiom shapes b WantedAxioms.All → NoOrder b → NoAxiomDue shapes b }
{}

//! Laws of the values of an open branch.

ghost use Rattle.std.specs.Prelude.{◌≡◌, ℕ, List};
ghost use Rattle.term_pool.specs.Pools.{IsOneNumber};
ghost use Rattle.term_pool.specs.declared.node.Node.{Node};
ghost use Rattle.linear_arith.specs.Substitution.{ArePositive};
ghost use Rattle.search.specs.declared.values.OpenValues.{OpenValues};
ghost use Rattle.report.specs.ReportData.{ParameterValueData};
ghost use Rattle.driver.specs.OpenValues.{AreValuesOf};

/// A law: the values printed for an open branch are the only ones that its classes give to the parameters.
pub fn one_value()
    ensures { (ns : List Node) (v : OpenValues) (parameters : List (List ℕ)) (values others : List ParameterValueData) → IsOneNumber ns → ArePositive v.values → AreValuesOf ns v parameters values → AreValuesOf ns v parameters others → values ≡ others }
{}

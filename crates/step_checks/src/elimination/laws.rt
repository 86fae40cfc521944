//! What a given elimination shows.

ghost use Rattle.std.specs.Prelude.{List};
ghost use Rattle.linear_arith.specs.Inequality.{Inequality};
ghost use Rattle.linear_arith.specs.declared.rows.Fraction.{Fraction};
ghost use Rattle.linear_arith.specs.Values.{AreAllChosen};
ghost use Rattle.step_checks.specs.declared.elimination.GivenElimination.{GivenElimination};
ghost use Rattle.step_checks.specs.Given.{IsGivenElimination};
ghost use Rattle.step_checks.specs.GivenValues.{AreGivenValues};
ghost use Rattle.step_checks.specs.Shown.{ShowsElimination};

/// A given elimination that passes the check is a complete one, with its unknowns and its rows.
pub fn given_eliminations_are_complete()
    ensures { (rows : List Inequality) (given : GivenElimination) → IsGivenElimination rows given → ShowsElimination rows given }
{}

/// Given values that pass the check after a given elimination are chosen for all unknowns of the rows.
pub fn given_values_are_chosen()
    ensures { (rows : List Inequality) (given : GivenElimination) (values : List Fraction) → AreGivenValues rows given values → AreAllChosen rows values }
{}

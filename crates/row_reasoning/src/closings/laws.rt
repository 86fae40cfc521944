//! Rows over classes without a solution close a branch that has their entries with the chosen term for each class.

ghost use Rattle.std.specs.Prelude.{ℕ, ℤ, List};
ghost use Rattle.std.specs.List.{AllZip};
ghost use Rattle.fol.specs.FormulaData.{TermData, FormulaData};
ghost use Rattle.certificates.specs.CertData.{LinearClose};
ghost use Rattle.certificates.specs.Closes.{IsClose};
ghost use Rattle.certificates.specs.declared.certificate.Multiple.{Multiple};
ghost use Rattle.linear_arith.specs.Combination.{IsContradiction};
ghost use Rattle.linear_arith.specs.Inequality.{Inequality};
ghost use Rattle.row_reasoning.specs.Rows.{IsRowFrom};
ghost use Rattle.row_reasoning.specs.declared.rows.RowOrigin.{RowOrigin};
ghost use Rattle.row_reasoning.specs.Chosen.{AreChosen};
ghost use Rattle.row_reasoning.specs.Cited.{AreCited};

/// Multipliers that combine rows to a contradiction also combine the entries of these rows, with the chosen term for
/// each class, to a contradiction.
pub fn rows_close()
    ensures { (class : TermData → ℕ) (classes : List ℕ) (chosen : ℕ → TermData) (ps qs : List FormulaData) (rows : List Inequality) (origins : List RowOrigin) (ms : List ℤ) (cited : List Multiple) → AreChosen class classes chosen → AllZip (IsRowFrom class ps classes) rows origins → IsContradiction rows ms → AreCited class chosen ps qs origins ms cited → IsClose qs (LinearClose cited) }
{}

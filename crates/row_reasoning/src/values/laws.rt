//! Laws of the rows of every branch.

ghost use Rattle.std.specs.Prelude.{ℕ, List, All};
ghost use Rattle.fol.specs.FormulaData.{TermData};
ghost use Rattle.linear_arith.specs.Fits.{IsFitting};
ghost use Rattle.linear_arith.specs.Inequality.{Inequality};
ghost use Rattle.certificates.specs.BranchesBranch.{Branch};
ghost use Rattle.certificates.specs.Rows.{AreBranchRows};

/// All numbers of the rows of a branch fit in 128 bits, and so do their negations.
pub fn rows_fit()
    ensures { (b : Branch) (class : TermData → ℕ) (classes : List ℕ) (rows : List Inequality) → AreBranchRows b class classes rows → All IsFitting rows }
{}

//! Laws of the alpha and beta rules: a rule that is not due at an entry does not become due when entries are added, so
//! a search continues at its mark, and does not revisit entries.

ghost use Rattle.std.specs.Prelude.{ℕ, ◌≤◌, ◌++◌, length};
ghost use Rattle.certificates.specs.BranchesBranch.{Branch};
ghost use Rattle.tableau.specs.Steps.{NoPartsBefore, NoSplitBefore};

/// Added entries do not make the parts of earlier ones due.
pub fn parts_stay_done()
    ensures { (b more : Branch) (count : ℕ) → count ≤ length b → NoPartsBefore b count → NoPartsBefore (b ++ more) count }
{}

/// Added entries do not make a split at earlier ones due.
pub fn splits_stay_done()
    ensures { (b more : Branch) (count : ℕ) → count ≤ length b → NoSplitBefore b count → NoSplitBefore (b ++ more) count }
{}

//! Laws of the substitution of a term for a variable.

ghost use Rattle.std.specs.Prelude.{◌≡◌, ℕ};
ghost use Rattle.fol.specs.Depth.{formula_depth};
ghost use Rattle.fol.specs.FormulaData.{TermData, VarTerm, FormulaData};
ghost use Rattle.substitution.specs.Instances.{IsInstance};
ghost use Rattle.term_pool.specs.Put.{put_in, IsClear};

/// A formula with a term substituted is an instance of it if no quantifier binds a variable of the term.
pub fn put_in_is_instance()
    ensures { (x : ℕ) (t : TermData) (p : FormulaData) → IsClear t p → IsInstance x t p (put_in x t p) }
{}

/// The substitution of a variable for a variable does not change the depth of a formula.
pub fn variables_keep_depth()
    ensures { (x v : ℕ) (p q : FormulaData) → IsInstance x (VarTerm v) p q → formula_depth q ≡ formula_depth p }
{}

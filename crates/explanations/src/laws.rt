//! Laws of the replacement of equals by equals.

ghost use Rattle.std.specs.Prelude.{ℕ, ◌≤◌, List};
ghost use Rattle.fol.specs.FormulaData.{TermData, VarTerm, EqFormula};
ghost use Rattle.term_pool.specs.Items.{TermItem, TermSort, formula_in};
ghost use Rattle.term_pool.specs.declared.node.Node.{Node};
ghost use Rattle.certificates.specs.Rewriting.{IsReplaced, IsRewriting};
ghost use Rattle.certificates.specs.Joined.{IsFreeOf};
ghost use Rattle.certificates.specs.Names.{above};
ghost use Rattle.explanations.specs.Frames.{filled, IsWay, bound_on};
ghost use Rattle.explanations.specs.declared.frame.Frame.{Frame};

/// The replacement of one term by another in a context that binds no variable of theirs: the pattern has in the hole a
/// variable above all those of the formula.
pub fn equals_for_equals()
    ensures { (ns : List Node) (way : List Frame) (x : ℕ) (t u : TermData) → IsWay ns way TermSort → above (formula_in (filled ns way (TermItem t))) ≤ x → IsFreeOf (bound_on way) t → IsFreeOf (bound_on way) u → IsReplaced x (formula_in (filled ns way (TermItem (VarTerm x)))) t u (formula_in (filled ns way (TermItem t))) (formula_in (filled ns way (TermItem u))) }
{}

/// Two equations that share a term give a third one: the right side of the one is replaced by the other
/// (transitivity).
pub fn equations_chain()
    ensures { (x : ℕ) (t u v : TermData) → above (EqFormula t u) ≤ x → IsRewriting x (EqFormula t (VarTerm x)) (EqFormula u v) (EqFormula t u) (EqFormula t v) }
{}

/// An equation swaps its sides in the equation of its left side with itself (symmetry).
pub fn equations_turn()
    ensures { (x : ℕ) (t u : TermData) → above (EqFormula t t) ≤ x → IsRewriting x (EqFormula (VarTerm x) t) (EqFormula t u) (EqFormula t t) (EqFormula u t) }
{}

//! Constructors of terms and formulas.

ghost use Rattle.std.specs.Prelude.{◌≡◌, ℕ, pos, if◌then◌else◌};
ghost use Rattle.fol.specs.FormulaData.{VarTerm, NumTerm, TrueTerm, FalseTerm, NothingTerm, AddTerm, SubTerm, MulTerm, DivTerm, ModTerm, IfTerm, EqFormula, LeFormula, IsFormula, HoldsFormula, NotFormula, AllOfFormula, AnyOfFormula, ForAllFormula, ExistsFormula, formulas_of, triggers_of};
ghost use Rattle.fol.specs.Numerals.{numeral};

use crate::formula::{Formula, FormulaNode, Term, TermNode, Triggers};
use crate::operators::{Binary, Comparison, Constant, Junction, Quantifier};
use base::types::TypeTerm;

impl Term {
    /// Returns the variable with this number.
    pub fn variable(number: u32) -> Term
        ensures { result ≡ VarTerm number }
    {
        Term {
            node: TermNode::Var(number),
        }
    }

    /// Returns the term of an integer.
    pub fn number(value: i128) -> Term
        ensures { result ≡ NumTerm value }
    {
        Term {
            node: TermNode::Constant(Constant::Num(value)),
        }
    }

    /// Returns the term of a natural number, in its one form.
    pub fn natural(value: u128) -> Term
        ensures { result ≡ numeral value }
    {
        let node = match i128::try_from(value) {
            Ok(signed) => TermNode::Constant(Constant::Num(signed)),
            Err(_) if value == u128::MAX => TermNode::Constant(Constant::Max),
            Err(_) => TermNode::Constant(Constant::Wide(value)),
        };
        Term { node }
    }

    /// Returns the term of a truth value.
    pub fn truth(value: bool) -> Term
        ensures { result ≡ (if value then TrueTerm else FalseTerm) }
    {
        let node = if value {
            TermNode::Constant(Constant::True)
        } else {
            TermNode::Constant(Constant::False)
        };
        Term { node }
    }

    /// Returns the term of the value that no Move value equals.
    pub fn nothing() -> Term
        ensures { result ≡ NothingTerm }
    {
        Term {
            node: TermNode::Constant(Constant::Nothing),
        }
    }

    /// Returns the sum of two terms.
    pub fn sum(left: Box<Term>, right: Box<Term>) -> Term
        ensures { result ≡ AddTerm left.value right.value }
    {
        Term {
            node: TermNode::Binary(Binary::Add, left, right),
        }
    }

    /// Returns the first term minus the second.
    pub fn difference(left: Box<Term>, right: Box<Term>) -> Term
        ensures { result ≡ SubTerm left.value right.value }
    {
        Term {
            node: TermNode::Binary(Binary::Sub, left, right),
        }
    }

    /// Returns the product of two terms.
    pub fn product(left: Box<Term>, right: Box<Term>) -> Term
        ensures { result ≡ MulTerm left.value right.value }
    {
        Term {
            node: TermNode::Binary(Binary::Mul, left, right),
        }
    }

    /// Returns the quotient of two terms, rounded down; its value is 0 where that of the divisor is 0.
    pub fn quotient(left: Box<Term>, right: Box<Term>) -> Term
        ensures { result ≡ DivTerm left.value right.value }
    {
        Term {
            node: TermNode::Binary(Binary::Div, left, right),
        }
    }

    /// Returns the remainder of the quotient.
    pub fn remainder(left: Box<Term>, right: Box<Term>) -> Term
        ensures { result ≡ ModTerm left.value right.value }
    {
        Term {
            node: TermNode::Binary(Binary::Mod, left, right),
        }
    }
}

impl Formula {
    /// Returns the formula that the terms have the same value.
    pub fn equal(left: Box<Term>, right: Box<Term>) -> Formula
        ensures { result ≡ EqFormula left.value right.value }
    {
        Formula {
            node: FormulaNode::Compare(Comparison::Eq, left, right),
        }
    }

    /// Returns the formula that the first number is at most the second.
    pub fn at_most(left: Box<Term>, right: Box<Term>) -> Formula
        ensures { result ≡ LeFormula left.value right.value }
    {
        Formula {
            node: FormulaNode::Compare(Comparison::Le, left, right),
        }
    }

    /// Returns the formula that the value of the term is of the type.
    pub fn has_type(of: TypeTerm, term: Box<Term>) -> Formula
        ensures { result ≡ IsFormula of term.value }
    {
        Formula {
            node: FormulaNode::Is(of, term),
        }
    }

    /// Returns the formula that the value of the term is `True`.
    pub fn holds(term: Box<Term>) -> Formula
        ensures { result ≡ HoldsFormula term.value }
    {
        Formula {
            node: FormulaNode::Holds(term),
        }
    }

    /// Returns the negation.
    pub fn not(formula: Box<Formula>) -> Formula
        ensures { result ≡ NotFormula formula.value }
    {
        Formula {
            node: FormulaNode::Not(formula),
        }
    }

    /// Returns the conjunction.
    pub fn all_of(formulas: Vec<Formula>) -> Formula
        ensures { result ≡ AllOfFormula (formulas_of formulas.items) }
    {
        Formula {
            node: FormulaNode::Join(Junction::AllOf, formulas),
        }
    }

    /// Returns the disjunction.
    pub fn any_of(formulas: Vec<Formula>) -> Formula
        ensures { result ≡ AnyOfFormula (formulas_of formulas.items) }
    {
        Formula {
            node: FormulaNode::Join(Junction::AnyOf, formulas),
        }
    }

    /// Returns the formula that the body is true for each value of the variable.
    pub fn for_all(variable: u32, triggers: Triggers, body: Box<Formula>) -> Formula
        ensures { result ≡ ForAllFormula variable (triggers_of triggers.items) body.value }
    {
        Formula {
            node: FormulaNode::Quantify(Quantifier::ForAll, variable, triggers, body),
        }
    }

    /// Returns the formula that the body is true for some value of the variable.
    pub fn exists(variable: u32, triggers: Triggers, body: Box<Formula>) -> Formula
        ensures { result ≡ ExistsFormula variable (triggers_of triggers.items) body.value }
    {
        Formula {
            node: FormulaNode::Quantify(Quantifier::Exists, variable, triggers, body),
        }
    }
}

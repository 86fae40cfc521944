//! Terms and formulas.

use crate::operators::{
    Binary, Comparison, Connective, Constant, Junction, Quantifier, Ternary, Unary,
};
use base::types::TypeTerm;
use std::marker::Model;

/// A term. It has a value for each assignment of values to its variables.
#[cycle(formula)]
pub struct Term {
    pub node: TermNode,
}

// A separate impl, so that each drop is a call and not the cases of all forms below it.
impl Drop for Term {
    #[cycle(drop_formula)]
    fn drop(self) {
        let Term { node } = self;
        drop(node);
    }
}

/// The forms of a term. Each term has a value, whatever the values of its children are; `specs/Operators.antt` defines
/// it.
#[cycle(formula)]
#[derive(Drop)]
pub enum TermNode {
    /// The variable with this number.
    Var(u32),
    Constant(Constant),
    Unary(Unary, Box<Term>),
    Binary(Binary, Box<Term>, Box<Term>),
    Ternary(Ternary, Box<Term>, Box<Term>, Box<Term>),
    /// The struct of this type with these fields.
    Pack(TypeTerm, Vec<Term>),
    /// The field with this number of a struct of this type.
    Field(TypeTerm, u32, Box<Term>),
    /// A struct of this type with the field of this number replaced.
    SetField(TypeTerm, u32, Box<Term>, Box<Term>),
    /// The first term if the formula is true, else the second.
    If(Box<Formula>, Box<Term>, Box<Term>),
}

/// A trigger of a quantifier: terms that, matched together, instantiate it. It does not affect the meaning of the
/// quantifier.
#[cycle(formula)]
#[derive(Drop)]
pub struct Trigger {
    pub terms: Vec<Term>,
}

/// The triggers of a quantifier.
pub type Triggers = Vec<Trigger>;

/// A formula. It is true or false for each assignment of values to its variables.
#[cycle(formula)]
pub struct Formula {
    pub node: FormulaNode,
}

// A separate impl, so that each drop is a call and not the cases of all forms below it.
impl Drop for Formula {
    #[cycle(drop_formula)]
    fn drop(self) {
        let Formula { node } = self;
        drop(node);
    }
}

/// The forms of a formula.
#[cycle(formula)]
#[derive(Drop)]
pub enum FormulaNode {
    Compare(Comparison, Box<Term>, Box<Term>),
    /// The value of the term is of the type.
    Is(TypeTerm, Box<Term>),
    /// The value of the term is `True`.
    Holds(Box<Term>),
    Not(Box<Formula>),
    Join(Junction, Vec<Formula>),
    Connect(Connective, Box<Formula>, Box<Formula>),
    /// The formula holds for each value, or for some value, of the variable.
    Quantify(Quantifier, u32, Triggers, Box<Formula>),
}

impl Model for Term {
    ghost use Rattle.fol.specs.FormulaData.{TermData, term_size};
    ghost use Rattle.fol.specs.FormulaCodes.{coded_term};

    ghost Value = { TermData };

    ghost coded = { coded_term };

    ghost use Rattle.fol.specs.FormulaView.{term_of_node};

    ghost view = { λ a. term_of_node a.node };

    ghost size = { term_size };

    ghost use Rattle.fol.specs.FormulaFalls.{term_falls};

    ghost size_decreases = { λ a h. term_falls a.node };
}

impl Model for Trigger {
    ghost use Rattle.fol.specs.FormulaData.{TermsData, terms_size, terms_of};
    ghost use Rattle.fol.specs.FormulaCodes.{coded_terms};

    ghost Value = { TermsData };

    ghost coded = { coded_terms };

    ghost view = { λ a. terms_of a.terms.items };

    ghost size = { terms_size };

    ghost use Rattle.fol.specs.FormulaFalls.{terms_fall};

    ghost size_decreases = { λ a h. terms_fall a.terms.items };
}

impl Model for Formula {
    ghost use Rattle.fol.specs.FormulaData.{FormulaData, formula_size};
    ghost use Rattle.fol.specs.FormulaCodes.{coded_formula};

    ghost Value = { FormulaData };

    ghost coded = { coded_formula };

    ghost use Rattle.fol.specs.FormulaView.{formula_of_node};

    ghost view = { λ a. formula_of_node a.node };

    ghost size = { formula_size };

    ghost use Rattle.fol.specs.FormulaFalls.{formula_falls};

    ghost size_decreases = { λ a h. formula_falls a.node };
}

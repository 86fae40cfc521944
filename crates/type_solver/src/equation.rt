//! The equations of constraints, given the heads before them.

use unification::type_variables::slots::{Sort, Term};

/// A condition on a typing.
#[derive(Clone, Copy)]
pub enum Equation<'a> {
    /// It holds of every typing.
    Always,
    /// It holds of no typing.
    Never,
    /// The head that a constraint needs is open.
    Unsettled,
    Equal(Term<'a>, Term<'a>),
    Sorted(Sort, usize),
    /// The type variable is a reference, of either kind, to the type of the term.
    Lent(Term<'a>, usize),
}

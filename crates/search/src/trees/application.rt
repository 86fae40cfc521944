//! The rule applications of a search, their terms and formulas by number.

ghost use Rattle.std.specs.Prelude.{◌≡◌};
ghost use Rattle.search.specs.Applications.{is_fork, origin_of};

use axioms::axiom::Axiom;
use certificates::branches::origin::Origin;
use certificates::certificate::Close;
use explanations::chain::ChainStep;

/// Why formulas are added to a branch: the rule, with what it is applied to.
#[derive(Clone, Copy, Debug, PartialEq, Eq)]
pub enum Reason {
    /// Alpha rule: the formulas are the conjuncts of the entry with this number.
    Parts(usize),
    /// Delta rule: the formula is the body of the entry with this number for this variable, its Skolem name.
    Name(u32, u32),
    /// Gamma rule: the formula is the instance of the entry with this number for the term with this number.
    Instance(usize, usize),
    /// The formula is an instance of the axiom.
    Axiom(Axiom),
    /// Beta rule: the formulas are the cases of the entry with this number.
    Split(usize),
    /// Cut: the terms with these numbers are equal, or they differ.
    Cut(usize, usize),
    /// The entry with the first number states that the term with the second number is a whole number: it is at most the
    /// third number, or at least the next one.
    Bound(usize, usize, i128),
}

/// Decides whether each of the formulas begins a branch of its own.
pub fn is_fork(reason: Reason) -> bool
    ensures { result ≡ is_fork reason }
{
    match reason {
        Reason::Split(_) | Reason::Cut(_, _) | Reason::Bound(_, _, _) => true,
        Reason::Parts(_) | Reason::Name(_, _) | Reason::Instance(_, _) | Reason::Axiom(_) => false,
    }
}

/// The origin of an entry added for this reason.
pub fn origin_of(reason: Reason) -> Origin
    ensures { result ≡ origin_of reason }
{
    match reason {
        Reason::Name(entry, _) => Origin::Name(entry),
        _ => Origin::Other,
    }
}

/// An application that adds formulas.
#[derive(Drop)]
pub struct Extension {
    pub reason: Reason,
    /// The number of instances of quantified formulas that led to them.
    pub generation: usize,
    /// The numbers of the formulas.
    pub formulas: Vec<usize>,
}

/// An application that closes the branch.
#[derive(Drop)]
pub struct Closing {
    /// The explanation of the closing: the equations derived for it.
    pub chain: Vec<ChainStep>,
    /// The kind of the closing.
    pub by: Close,
}

/// A rule application of a search.
#[derive(Drop)]
pub enum PoolApplication {
    Grown(Extension),
    Closed(Closing),
}

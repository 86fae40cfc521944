//! Certificates: sequences of moves that close every branch of a tableau for a formula's negation.
//!
//! A branch is a list of formulas, called entries and counted from 0. It begins with the negation of the certified
//! formula; each step adds entries at its end. These are analytic tableaux (R. Smullyan, First-Order Logic, chapter
//! II), with linear arithmetic at the leaves.

use axioms::axiom::Axiom;
use fol::formula::{Formula, Term};
use std::marker::Model;

/// A certificate: the moves of a tableau in depth-first order. They follow the first case of each fork until its
/// branch is closed, and then go on with the next case.
pub struct Cert {
    pub moves: Vec<Move>,
}

// This impl makes each drop of a certificate a call, instead of the cases of all forms below it.
impl Drop for Cert {
    fn drop(self) {
        let Cert { moves } = self;
        drop(moves);
    }
}

/// A move on the current branch.
pub struct Move {
    pub node: MoveNode,
}

// This impl makes each drop of a move a call, instead of the cases of all forms below it.
impl Drop for Move {
    fn drop(self) {
        let Move { node } = self;
        drop(node);
    }
}

/// The kinds of moves.
#[derive(Drop)]
pub enum MoveNode {
    /// The step extends the branch.
    Straight(Step),
    /// The branch forks into one branch for each of these cases.
    Forked(Cause, Vec<Formula>),
    /// The branch is closed.
    Closed(Close),
}

/// A straight (non-branching) step.
pub struct Step {
    pub node: StepNode,
}

// This impl makes each drop of a step a call, instead of the cases of all forms below it.
impl Drop for Step {
    fn drop(self) {
        let Step { node } = self;
        drop(node);
    }
}

/// The forms of a straight step.
#[derive(Drop)]
pub enum StepNode {
    /// The alpha rule: the entry with this number is a conjunction, and its parts (conjuncts) are added to the branch.
    Parts(u32, Vec<Formula>),
    /// An instance of the axiom is added to the branch.
    Axiom(Axiom, Formula),
    /// The gamma rule (instantiation): the entry with this number is universal, and its instance for a term is added
    /// to the branch.
    Instance(u32, Term, Formula),
    /// The delta rule (Skolem name): the entry with this number is existential, and its instance for a variable that
    /// is free in no entry is added to the branch; the variable names the witness.
    Name(u32, u32, Formula),
    /// The first entry is an equation of two terms. The second is the instance of a pattern for one of them, and the
    /// instance for the other is added to the branch.
    Rewrite(u32, u32, u32, Formula, Formula),
}

/// The reason why one of the cases of a fork is true.
#[derive(Clone, Copy, Debug, PartialEq, Eq)]
pub enum Cause {
    /// The beta rule (case split): the entry with this number is a disjunction, and these are its cases.
    Split(u32),
    /// The cut rule: there are two cases, and the second negates the first.
    Cut,
    /// The entry with this number states that a term is a whole number; one case states that it is at most some
    /// number, the other that it is at least 1 more.
    Bound(u32),
}

/// A step that closes its branch.
#[derive(Drop)]
pub enum Close {
    /// A linear combination of entries, read as rows over whole numbers, is the contradiction that a positive number
    /// is at most 0.
    Linear(Vec<Multiple>),
    /// The second entry is the negation of the first.
    Clash(u32, u32),
    /// The entry is false by its form.
    False(u32),
}

/// An entry, by its number on the branch, and its multiplier in a combination.
#[derive(Clone, Copy, Debug, PartialEq, Eq)]
pub struct Multiple {
    pub entry: u32,
    pub multiplier: i128,
}

impl Model for Step {
    ghost use Rattle.certificates.specs.CertData.{StepData};
    ghost use Rattle.certificates.specs.CertCodes.{coded_step};

    ghost Value = { StepData };

    ghost coded = { coded_step };

    ghost use Rattle.certificates.specs.CertView.{step_of_node};

    ghost view = { λ a. step_of_node a.node };
}

impl Model for Move {
    ghost use Rattle.certificates.specs.CertData.{MoveData};
    ghost use Rattle.certificates.specs.CertCodes.{coded_move};

    ghost Value = { MoveData };

    ghost coded = { coded_move };

    ghost use Rattle.certificates.specs.CertView.{move_of_node};

    ghost view = { λ a. move_of_node a.node };
}

impl Model for Cert {
    ghost use Rattle.std.specs.Prelude.{List};
    ghost use Rattle.certificates.specs.CertData.{MoveData};
    ghost use Rattle.certificates.specs.CertCodes.{coded_cert};

    ghost Value = { List MoveData };

    ghost coded = { coded_cert };

    ghost view = { λ a. a.moves.items };
}

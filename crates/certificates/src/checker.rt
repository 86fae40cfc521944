//! The checker of certificates, which allocates no memory.

ghost use Rattle.std.specs.Prelude.{◌≡◌, ◌↔◌, IsTrue, true};
ghost use Rattle.fol.specs.Validity.{Valid};
ghost use Rattle.certificates.specs.Closes.{Certifies, IsMoveIn};
ghost use Rattle.certificates.specs.Open.{open_of, IsKept, IsAfter};

use crate::branch::added_by;
use crate::certificate::{Cert, Move, MoveNode};
use crate::closing::closes;
use crate::forks::is_fork;
use crate::open::Open;
use crate::steps::is_step;
use fol::formula::Formula;
use fol::shapes::Shapes;

/// Decides whether the certificate is one of the formula, over these shapes of structs: `exact`. A formula that has a
/// certificate is valid under them: `sound`. The checker allocates no memory, and its stack does not grow with the
/// certificate.
pub fn check(shapes: &Shapes, formula: &Formula, cert: &Cert) -> bool
    ensures exact { IsTrue result ↔ Certifies shapes.now cert.now formula.now }
    ensures sound { IsTrue result → Valid shapes.now formula.now }
{
    is_certificate(shapes, formula, cert.moves.as_slice())
}

fn is_certificate(shapes: &Shapes, formula: &Formula, moves: &[Move]) -> bool
    ensures { IsTrue result ↔ Certifies shapes.now moves.now formula.now }
{
    let mut branches = Open::begun(formula);
    for made in moves {
        if !take(shapes, &mut branches, made) {
            return false;
        }
    }
    branches.is_none()
}

// Makes a move if it is allowed on the current branch.
fn take<'a>(shapes: &Shapes, branches: &mut Open<'a>, made: &'a Move) -> bool
    requires { IsKept branches.old }
    ensures exact { IsTrue result ↔ IsMoveIn shapes.now (open_of branches.old) made.now }
    ensures after { result ≡ true → IsAfter branches.old made.now branches.new }
{
    if branches.is_none() {
        return false;
    }
    match &made.node {
        MoveNode::Straight(step) => {
            is_step(shapes, &branches.branch, step) && branches.go_on(added_by(step))
        }
        MoveNode::Forked(cause, cases) => {
            is_fork(&branches.branch, *cause, cases.as_slice()) && branches.fork(cases.as_slice())
        }
        MoveNode::Closed(by) => {
            if !closes(&branches.branch, by) {
                return false;
            }
            branches.close();
            true
        }
    }
}

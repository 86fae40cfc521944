//! The open branches while a certificate is checked.

ghost use Rattle.std.specs.Prelude.{◌≡◌, ◌↔◌, ◌+◌, ◌<◌, ◌≤◌, ◌∷◌, [], ◌++◌, IsTrue, true, false, length, map, All};
ghost use Rattle.fol.specs.FormulaData.{NotFormula};
ghost use Rattle.certificates.specs.Branch.{entries_of};
ghost use Rattle.certificates.specs.Closes.{IsShort, most_entries};
ghost use Rattle.certificates.specs.Open.{worked_on, others_of, open_of, IsOn, IsKept, IsHalted};

use crate::branch::{Branch, MOST_ENTRIES, extend};
use crate::waiting::Waiting;
use fol::formula::Formula;

/// The current branch, and the pending cases; or no branch.
#[derive(Drop)]
pub struct Open<'a> {
    pub branch: Branch<'a>,
    waiting: Waiting<'a>,
    is_none: bool,
}

impl<'a> Open<'a> {
    /// The branch whose only entry is the negation of the formula.
    pub fn begun(formula: &'a Formula) -> Open<'a>
        ensures kept { IsKept result }
        ensures branches { open_of result ≡ (NotFormula formula.now ∷ []) ∷ [] }
    {
        Open {
            branch: Branch::begun(formula),
            waiting: Waiting::none(std::slice::from_ref(formula)),
            is_none: false,
        }
    }

    /// Decides whether no branch is open.
    pub fn is_none(&self) -> bool
        ensures exact { IsTrue result ↔ (open_of self.now ≡ []) }
        ensures on { result ≡ false → IsOn self.now }
    {
        self.is_none
    }

    /// Adds entries to the current branch. Returns false if the branch would be longer than a branch may be.
    pub fn go_on(&mut self, formulas: &'a [Formula]) -> bool
        requires kept { IsKept self.old }
        requires on { IsOn self.old }
        ensures exact { IsTrue result ↔ All IsShort ((worked_on self.old ++ formulas.now) ∷ []) }
        ensures kept { result ≡ true → IsKept self.new }
        ensures branches { result ≡ true → open_of self.new ≡ (worked_on self.old ++ formulas.now) ∷ others_of self.old }
    {
        extend(&mut self.branch, formulas)
    }

    /// Goes on with each case, the first one first. Returns false if a branch would be longer than a branch may be.
    pub fn fork(&mut self, cases: &'a [Formula]) -> bool
        requires kept { IsKept self.old }
        requires on { IsOn self.old }
        ensures exact { IsTrue result ↔ All IsShort (map (λ p. worked_on self.old ++ p ∷ []) cases.now) }
        ensures kept { result ≡ true → IsKept self.new }
        ensures branches { result ≡ true → open_of self.new ≡ map (λ p. worked_on self.old ++ p ∷ []) cases.now ++ others_of self.old }
    {
        if !self.wait(cases) {
            return false;
        }
        self.resume();
        true
    }

    // Adds the cases to the pending ones, if their branches are short enough.
    fn wait(&mut self, cases: &'a [Formula]) -> bool
        requires kept { IsKept self.old }
        requires on { IsOn self.old }
        ensures exact { IsTrue result ↔ All IsShort (map (λ p. worked_on self.old ++ p ∷ []) cases.now) }
        ensures halted { result ≡ true → IsHalted self.new }
        ensures branches { result ≡ true → others_of self.new ≡ map (λ p. worked_on self.old ++ p ∷ []) cases.now ++ others_of self.old }
    {
        if cases.is_empty() {
            return true;
        }
        let mark = self.branch.len();
        if mark >= MOST_ENTRIES {
            return false;
        }
        self.waiting.push(mark, cases);
        true
    }

    /// Closes the current branch.
    pub fn close(&mut self)
        requires kept { IsKept self.old }
        requires on { IsOn self.old }
        ensures kept { IsKept self.new }
        ensures branches { open_of self.new ≡ others_of self.old }
    {
        self.resume();
    }

    // Goes on with the next pending case.
    fn resume(&mut self)
        requires { IsHalted self.old }
        ensures kept { IsKept self.new }
        ensures branches { open_of self.new ≡ others_of self.old }
    {
        match self.waiting.next() {
            Some(case) => {
                self.branch.truncate(case.mark);
                self.branch.push(case.formula);
            }
            None => self.is_none = true,
        }
    }
}

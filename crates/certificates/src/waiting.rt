//! The pending cases while the branch of another one is processed, in an array on the stack.

ghost use Rattle.std.specs.Prelude.{◌≡◌, ◌<◌, ◌≤◌, ◌∷◌, [], ◌++◌, map, IfSome, MatchOption};
ghost use Rattle.certificates.specs.Closes.{most_entries};
ghost use Rattle.certificates.specs.Waiting.{cases_in, count_of, IsOrdered, case_of, case_at};

use crate::branch::MOST_ENTRIES;
use fol::formula::Formula;

/// The remaining cases of a fork, and the number of entries of its branch.
#[derive(Clone, Copy)]
pub struct Fork<'a> {
    pub mark: usize,
    pub cases: &'a [Formula],
}

/// A pending case, and the number of entries of the branch that it extends.
#[derive(Clone, Copy)]
pub struct Case<'a> {
    pub mark: usize,
    pub formula: &'a Formula,
}

/// The forks with remaining cases, in the first cells of the array, the innermost last.
#[derive(Drop)]
pub struct Waiting<'a> {
    positions: [Fork<'a>; MOST_ENTRIES],
    count: usize,
}

impl<'a> Waiting<'a> {
    /// No fork. The cases fill the array, and are never read.
    pub fn none(cases: &'a [Formula]) -> Waiting<'a>
        ensures ordered { IsOrdered result }
        ensures cases { cases_in result ≡ [] }
        ensures count { count_of result ≡ 0 }
    {
        Waiting {
            positions: [Fork { mark: 0, cases }; MOST_ENTRIES],
            count: 0,
        }
    }

    /// Adds the cases of a fork before all other pending cases.
    pub fn push(&mut self, mark: usize, cases: &'a [Formula])
        requires ordered { IsOrdered self.old }
        requires later { count_of self.old < mark }
        requires room { mark < most_entries }
        ensures ordered { IsOrdered self.new }
        ensures cases { cases_in self.new ≡ map (case_at mark) cases.now ++ cases_in self.old }
        ensures count { count_of self.new ≤ mark }
    {
        let count = self.count;
        let positions = &mut self.positions[..];
        positions[count] = Fork { mark, cases };
        self.count += 1;
    }

    /// Removes the next case and returns it.
    pub fn next(&mut self) -> Option<Case<'a>>
        requires { IsOrdered self.old }
        ensures ordered { IsOrdered self.new }
        ensures cases { MatchOption result (cases_in self.old ≡ []) (λ case. cases_in self.old ≡ case_of case ∷ cases_in self.new) }
        ensures count { MatchOption result (count_of self.new ≡ 0) (λ case. count_of self.new ≤ case.mark) }
        ensures room { IfSome result (λ case. case.mark < most_entries) }
    {
        while self.count > 0 {
            let last = self.count - 1;
            let positions = &mut self.positions[..];
            let Fork { mark, cases } = positions[last];
            match cases.split_first() {
                Some((formula, rest)) => {
                    positions[last] = Fork { mark, cases: rest };
                    return Some(Case { mark, formula });
                }
                None => self.count = last,
            }
        }
        None
    }
}

//! Forks: cases one of which is true if the branch is, and whose depths are within the limit.

ghost use Rattle.std.specs.Prelude.{◌≡◌, ◌↔◌, IsTrue, Some};
ghost use Rattle.base.specs.TypeData.{NumType};
ghost use Rattle.fol.specs.FormulaData.{TermData, FormulaData, IsFormula};
ghost use Rattle.certificates.specs.Quantified.{AreBounds};
ghost use Rattle.certificates.specs.Branch.{entries_of, IsCounted};
ghost use Rattle.certificates.specs.Parts.{cases_of};
ghost use Rattle.certificates.specs.Closes.{most_deep_of, IsEntry, IsFork, IsForkWithin};

use crate::branch::{Branch, Entry, entry_at};
use crate::certificate::Cause;
use crate::steps::{MOST_DEEP, are_within};
use crate::tableau::{are_bounds_of, are_cases, are_cut};
use fol::formula::Formula;

/// Decides whether one of the cases is true if the branch is, by this cause, and the depth of each is within the
/// limit.
pub fn is_fork(branch: &Branch<'_>, cause: Cause, cases: &[Formula]) -> bool
    requires { IsCounted branch.now }
    ensures { IsTrue result ↔ IsForkWithin (entries_of branch.now) cause cases.now }
{
    are_within(cases, most_deep_of(cause)) && is_caused(branch, cause, cases)
}

// The greatest depth of the cases.
fn most_deep_of(cause: Cause) -> u32
    ensures { result ≡ most_deep_of cause }
{
    match cause {
        Cause::Split(_) => MOST_DEEP,
        Cause::Cut | Cause::Bound(_) => MOST_DEEP + 1,
    }
}

fn is_caused(branch: &Branch<'_>, cause: Cause, cases: &[Formula]) -> bool
    requires { IsCounted branch.now }
    ensures { IsTrue result ↔ IsFork (entries_of branch.now) cause cases.now }
{
    match cause {
        Cause::Split(index) => splits(branch, index, cases),
        Cause::Cut => are_cut(cases),
        Cause::Bound(index) => bounds(branch, index, cases),
    }
}

fn splits(branch: &Branch<'_>, index: u32, cases: &[Formula]) -> bool
    requires { IsCounted branch.now }
    ensures { IsTrue result
        ↔ ((p : FormulaData) × IsEntry (entries_of branch.now) index p × (cases_of p ≡ Some cases.now)) }
{
    match entry_at(branch, index as usize) {
        Some(entry) => are_cases(entry, cases),
        None => false,
    }
}

fn bounds(branch: &Branch<'_>, index: u32, cases: &[Formula]) -> bool
    requires { IsCounted branch.now }
    ensures { IsTrue result
        ↔ ((t : TermData) × IsEntry (entries_of branch.now) index (IsFormula NumType t) × AreBounds t cases.now) }
{
    match entry_at(branch, index as usize) {
        Some(Entry::Plain(of)) => are_bounds_of(of, cases),
        _ => false,
    }
}

//! A branch, in an array on the stack: the checker allocates no memory, and finds an entry in constant time.

ghost use Rattle.std.specs.Prelude.{◌≡◌, ◌↔◌, ◌+◌, ◌<◌, ◌≤◌, ◌∷◌, [], ◌++◌, IsTrue, true, length, take, slice_get};
ghost use Rattle.std.specs.Option.{option_map};
ghost use Rattle.fol.specs.FormulaData.{NotFormula};
ghost use Rattle.certificates.specs.Branch.{entries_of, entry_formula, IsCounted};
ghost use Rattle.certificates.specs.Closes.{added, most_entries};

use crate::certificate::{Step, StepNode};
use fol::formula::Formula;

/// The greatest number of entries of a branch.
pub const MOST_ENTRIES: usize = 4_000;

/// An entry of a branch; a negation is represented without building it.
#[derive(Clone, Copy)]
pub enum Entry<'a> {
    /// The negation of this formula.
    Negated(&'a Formula),
    /// This formula.
    Plain(&'a Formula),
}

/// A branch: the entries in the first cells of the array, and arbitrary values after them.
#[derive(Drop)]
pub struct Branch<'a> {
    positions: [Entry<'a>; MOST_ENTRIES],
    count: usize,
}

impl<'a> Branch<'a> {
    /// The branch whose only entry is the negation of the formula.
    pub fn begun(formula: &'a Formula) -> Branch<'a>
        ensures counted { IsCounted result }
        ensures entries { entries_of result ≡ NotFormula formula.now ∷ [] }
    {
        Branch {
            positions: [Entry::Negated(formula); MOST_ENTRIES],
            count: 1,
        }
    }

    /// The number of entries.
    pub fn len(&self) -> usize
        requires { IsCounted self.now }
        ensures { result ≡ length (entries_of self.now) }
    {
        self.count
    }

    /// Adds an entry at the end.
    pub fn push(&mut self, formula: &'a Formula)
        requires counted { IsCounted self.old }
        requires room { length (entries_of self.old) < most_entries }
        ensures counted { IsCounted self.new }
        ensures entries { entries_of self.new ≡ entries_of self.old ++ formula.now ∷ [] }
    {
        let count = self.count;
        let positions = &mut self.positions[..];
        positions[count] = Entry::Plain(formula);
        self.count += 1;
    }

    /// Removes the entries from this number on.
    pub fn truncate(&mut self, count: usize)
        requires counted { IsCounted self.old }
        requires within { count ≤ length (entries_of self.old) }
        ensures counted { IsCounted self.new }
        ensures entries { entries_of self.new ≡ take count (entries_of self.old) }
    {
        self.count = count;
    }
}

/// The entry with this number.
pub fn entry_at<'a>(branch: &Branch<'a>, index: usize) -> Option<Entry<'a>>
    requires { IsCounted branch.now }
    ensures { option_map entry_formula result ≡ slice_get (entries_of branch.now) index }
{
    if index < branch.count {
        let positions = &branch.positions[..];
        Some(positions[index])
    } else {
        None
    }
}

/// Adds entries at the end. Returns false if the branch would be longer than a branch may be.
pub fn extend<'a>(branch: &mut Branch<'a>, formulas: &'a [Formula]) -> bool
    requires counted { IsCounted branch.old }
    ensures exact { IsTrue result ↔ (length (entries_of branch.old) + length formulas.now ≤ most_entries) }
    ensures counted { IsCounted branch.new }
    ensures entries { result ≡ true → entries_of branch.new ≡ entries_of branch.old ++ formulas.now }
{
    if formulas.len() > MOST_ENTRIES - branch.len() {
        return false;
    }
    for formula in formulas {
        branch.push(formula);
    }
    true
}

/// The formulas that a straight (non-branching) step adds.
pub fn added_by(step: &Step) -> &[Formula]
    ensures { result.now ≡ added step.now }
{
    match &step.node {
        StepNode::Parts(_, formulas) => formulas.as_slice(),
        StepNode::Axiom(_, formula) => std::slice::from_ref(formula),
        StepNode::Instance(_, _, formula) => std::slice::from_ref(formula),
        StepNode::Name(_, _, formula) => std::slice::from_ref(formula),
        StepNode::Rewrite(_, _, _, _, formula) => std::slice::from_ref(formula),
    }
}

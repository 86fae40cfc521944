//! The state of a branch: its entries with its variables and its classes, which follow the branch.

pub mod laws;
pub mod marks;

ghost use Rattle.std.specs.Prelude.{◌≡◌, ◌≤◌, ◌↔◌, ◌∷◌, [], ◌++◌, ℕ, List, length, map, take, slice_get, Some, IsTrue, IfOk, OnOk};
ghost use Rattle.term_pool.specs.declared.node.Node.{Node};
ghost use Rattle.tableau.specs.PoolBranches.{BranchData, branch_in, IsFormulaNumber, IsOver};
ghost use Rattle.congruence_closure.specs.Known.{IsOver as ClassesOver, AreInEntries};
ghost use Rattle.tableau.specs.Terms.{formula_number, AreClassesOf};
ghost use Rattle.tableau.specs.States.{HaveNumbers, IsState, Follows, AreMarks};

use crate::branch::PoolBranch;
use crate::entry::PoolEntry;
use crate::names::variables::Variables;
use crate::state::marks::{Marks, last_marks};
use base::memory::NoMemory;
use congruence_closure::branch_classes::BranchClasses;
use std::alloc::Global;
use std::mem;
use term_pool::pool::Pool;

/// The state of the branch that was followed last. Its classes follow separately, since many branches are closed
/// before the classes are needed.
#[derive(Drop)]
pub struct BranchState {
    pub entries: Vec<PoolEntry>,
    /// The variables of its entries.
    pub variables: Variables,
    /// The classes of the branch whose classes were followed last.
    pub classes: BranchClasses,
    // The entries that were added to the classes.
    classed: Vec<PoolEntry>,
    // For each entry the marks of the branch up to it.
    marks: Vec<Marks>,
}

// Decides whether the entry of the branch with this number is this one.
fn is_entry(branch: &PoolBranch, number: usize, entry: PoolEntry) -> bool
    ensures { IsTrue result ↔ (slice_get branch.now.entries number ≡ Some entry) }
{
    match branch.entry(number) {
        Some(other) => other == entry,
        None => false,
    }
}

// The length of the common prefix of these entries and the branch.
fn shared(entries: &[PoolEntry], branch: &PoolBranch) -> usize
    ensures within { result ≤ length entries.now }
    ensures same { take result entries.now ≡ take result branch.now.entries }
{
    for number in 0..entries.len() {
        if !is_entry(branch, number, entries[number]) {
            return number;
        }
    }
    entries.len()
}

// Returns the classes to which these entries were added.
fn classes_of(alloc: Global, pool: &Pool, entries: &[PoolEntry]) -> Result<BranchClasses, NoMemory>
    requires { HaveNumbers pool.now entries.now }
    ensures over { IfOk result (λ classes. ClassesOver pool.now classes) }
    ensures inside { IfOk result (λ classes. AreInEntries pool.now classes) }
    ensures entries { IfOk result (λ classes. classes.entries ≡ map formula_number entries.now) }
{
    let mut classes = BranchClasses::new(alloc);
    for entry in entries {
        classes = classes.with_entry(alloc, pool, entry.formula)?;
    }
    Ok(classes)
}

// Removes all entries but the first `count`.
fn leave(state: &mut BranchState, count: usize)
    ensures state { (ns : List Node) → IsState ns state.old → IsState ns state.new }
    ensures entries { state.new.entries.items ≡ take count state.old.entries.items }
{
    state.entries.truncate(count);
    state.variables.truncate(count);
    state.marks.truncate(count);
}

// Adds an entry at the end.
fn enter(state: &mut BranchState, entry: PoolEntry) -> Result<(), NoMemory>
    ensures state { (ns : List Node) → IsState ns state.old → IsFormulaNumber ns entry.formula → OnOk result (IsState ns state.new) }
    ensures entries { OnOk result (state.new.entries.items ≡ state.old.entries.items ++ entry ∷ []) }
{
    state.entries.push(entry)?;
    state.marks.push(last_marks(state.marks.as_slice()))?;
    Ok(())
}

// Rebuilds the classes from the first `count` of their entries.
fn leave_classes(
    state: &mut BranchState,
    alloc: Global,
    pool: &Pool,
    count: usize,
) -> Result<(), NoMemory>
    requires { IsState pool.now state.old }
    ensures state { OnOk result (IsState pool.now state.new) }
    ensures entries { state.new.entries ≡ state.old.entries }
    ensures classed { OnOk result (state.new.classed.items ≡ take count state.old.classed.items) }
{
    if state.classed.len() <= count {
        return Ok(());
    }
    state.classed.truncate(count);
    state.classes = classes_of(alloc, pool, state.classed.as_slice())?;
    Ok(())
}

// Adds an entry to the classes.
fn enter_classes(
    state: &mut BranchState,
    alloc: Global,
    pool: &Pool,
    entry: PoolEntry,
) -> Result<(), NoMemory>
    requires state { IsState pool.now state.old }
    requires formula { IsFormulaNumber pool.now entry.formula }
    ensures state { OnOk result (IsState pool.now state.new) }
    ensures entries { state.new.entries ≡ state.old.entries }
    ensures classed { OnOk result (state.new.classed.items ≡ state.old.classed.items ++ entry ∷ []) }
{
    let before = mem::replace(&mut state.classes, BranchClasses::new(alloc));
    state.classes = before.with_entry(alloc, pool, entry.formula)?;
    state.classed.push(entry)?;
    Ok(())
}

impl BranchState {
    /// Returns a state that follows no branch yet.
    pub fn new(alloc: Global) -> BranchState
        ensures { (ns : List Node) → IsState ns result }
    {
        BranchState {
            entries: Vec::new(alloc),
            variables: Variables::new(alloc),
            classes: BranchClasses::new(alloc),
            classed: Vec::new(alloc),
            marks: Vec::new(alloc),
        }
    }

    /// Follows the entries of the branch, with its marks: removes the entries that the branch does not have, and adds
    /// its further entries. The classes remain those of the branch before.
    ///
    /// # Errors
    ///
    /// Only if memory ran out. The state must not be used then.
    pub fn follow_entries(&mut self, pool: &Pool, branch: &PoolBranch) -> Result<(), NoMemory>
        requires state { IsState pool.now self.old }
        requires over { IsOver pool.now branch.now }
        ensures state { OnOk result (IsState pool.now self.new) }
        ensures follows { OnOk result (Follows branch.now self.new) }
    {
        let kept = shared(self.entries.as_slice(), branch);
        leave(self, kept);
        while let Some(entry) = branch.entry(self.entries.len()) {
            enter(self, entry)?;
        }
        Ok(())
    }

    /// Follows the branch with the classes alone. It takes the time of its further entries; if entries are removed, it
    /// rebuilds the classes of the remaining ones.
    ///
    /// # Errors
    ///
    /// Only if memory ran out. The state must not be used then.
    pub fn follow_classes(
        &mut self,
        alloc: Global,
        pool: &Pool,
        branch: &PoolBranch,
    ) -> Result<(), NoMemory>
        requires state { IsState pool.now self.old }
        requires over { IsOver pool.now branch.now }
        ensures state { OnOk result (IsState pool.now self.new) }
        ensures entries { OnOk result (self.new.entries ≡ self.old.entries) }
        ensures classes { OnOk result (AreClassesOf pool.now branch.now self.new.classes) }
    {
        let kept = shared(self.classed.as_slice(), branch);
        leave_classes(self, alloc, pool, kept)?;
        while let Some(entry) = branch.entry(self.classed.len()) {
            enter_classes(self, alloc, pool, entry)?;
        }
        Ok(())
    }

    /// Follows the branch with the whole state.
    ///
    /// # Errors
    ///
    /// Only if memory ran out. The state must not be used then.
    pub fn follow(
        &mut self,
        alloc: Global,
        pool: &Pool,
        branch: &PoolBranch,
    ) -> Result<(), NoMemory>
        requires state { IsState pool.now self.old }
        requires over { IsOver pool.now branch.now }
        ensures state { OnOk result (IsState pool.now self.new) }
        ensures follows { OnOk result (Follows branch.now self.new) }
        ensures classes { OnOk result (AreClassesOf pool.now branch.now self.new.classes) }
    {
        self.follow_entries(pool, branch)?;
        self.follow_classes(alloc, pool, branch)
    }

    /// The marks of the branch that was followed last.
    pub fn marks(&self) -> Marks
        ensures { (ns : List Node) (d : BranchData) → IsState ns self.now → Follows d self.now → AreMarks (branch_in ns d) result }
    {
        last_marks(self.marks.as_slice())
    }

    /// Sets the marks of the branch that was followed last.
    pub fn set_marks(&mut self, marks: Marks)
        ensures state { (ns : List Node) (d : BranchData) → IsState ns self.old → Follows d self.old → AreMarks (branch_in ns d) marks → IsState ns self.new }
        ensures follows { (d : BranchData) → Follows d self.old → Follows d self.new }
        ensures variables { self.new.variables ≡ self.old.variables }
        ensures classes { self.new.classes ≡ self.old.classes }
        ensures classed { self.new.classed ≡ self.old.classed }
    {
        let count = self.marks.len();
        if count > 0 {
            self.marks[count - 1] = marks;
        }
    }
}

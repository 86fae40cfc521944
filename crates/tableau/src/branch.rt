//! A branch of a search, with its formulas by number.

ghost use Rattle.std.specs.Prelude.{◌≡◌, ◌↔◌, List, [], ◌∷◌, ◌++◌, length, take, slice_get, IsTrue, OnOk, MatchOption};
ghost use Rattle.term_pool.specs.Items.{formula_in, term_in};
ghost use Rattle.term_pool.specs.Pools.{item_at};
ghost use Rattle.term_pool.specs.declared.node.Node.{Node};
ghost use Rattle.certificates.specs.BranchesBranch.{Stands, IsNew, IsGeneration};
ghost use Rattle.tableau.specs.PoolBranches.{branch_in, mark_at, IsFormulaNumber, IsTermNumber, IsFirstEntry, IsNoTerm, IsOver};

use crate::entry::PoolEntry;
use crate::log::Log;
use crate::marking::mark;
use base::memory::NoMemory;
use std::alloc::Global;
use std::marker::Model;
use term_pool::pool::Pool;

/// A branch over a pool. It finds the entry of a formula, and the generation of a term, in constant time. Nodes may be
/// added to the pool without changing the branch. After an `Err` it must not be used.
#[derive(Drop)]
pub struct PoolBranch {
    entries: Vec<PoolEntry>,
    // The number of the first entry with a formula, by the formula's number; one change for each entry.
    firsts: Log,
    // For each entry the number of changes of generations before it.
    marks: Vec<usize>,
    // The least generation of the entries in which an item occurs, by its number.
    generations: Log,
}

impl Model for PoolBranch {
    ghost use Rattle.tableau.specs.PoolBranches.{BranchData};

    ghost Value = { BranchData };

    ghost view = { λ b. record { entries = b.entries.items; firsts = b.firsts; marks = b.marks.items; generations = b.generations } };
}

impl PoolBranch {
    /// Returns a branch without entries.
    pub fn new(alloc: Global) -> PoolBranch
        ensures entries { result.entries ≡ [] }
        ensures over { (ns : List Node) → IsOver ns result }
    {
        PoolBranch {
            entries: Vec::new(alloc),
            firsts: Log::new(alloc),
            marks: Vec::new(alloc),
            generations: Log::new(alloc),
        }
    }

    /// The number of entries.
    pub fn len(&self) -> usize
        ensures { result ≡ length self.now.entries }
    {
        self.entries.len()
    }

    /// The entry with this number. None if there is no such entry.
    pub fn entry(&self, number: usize) -> Option<PoolEntry>
        ensures { result ≡ slice_get self.now.entries number }
    {
        match self.entries.get(number) {
            Some(entry) => Some(*entry),
            None => None,
        }
    }

    /// The number of the first entry that is the formula with this number. None if the formula is not on the branch.
    pub fn first(&self, pool: &Pool, formula: usize) -> Option<usize>
        requires over { IsOver pool.now self.now }
        requires formula { IsFormulaNumber pool.now formula }
        ensures { MatchOption result (IsNew (branch_in pool.now self.now) (formula_in (item_at pool.now formula))) (IsFirstEntry (branch_in pool.now self.now) (formula_in (item_at pool.now formula))) }
    {
        pool.one_number();
        self.firsts.value(formula)
    }

    /// Decides whether the formula with this number is on the branch.
    pub fn stands(&self, pool: &Pool, formula: usize) -> bool
        requires over { IsOver pool.now self.now }
        requires formula { IsFormulaNumber pool.now formula }
        ensures { IsTrue result ↔ Stands (branch_in pool.now self.now) (formula_in (item_at pool.now formula)) }
    {
        self.first(pool, formula).is_some()
    }

    /// The generation of the term with this number: the least of the entries in which it occurs outside quantifiers;
    /// none if there is no such entry.
    pub fn generation(&self, pool: &Pool, term: usize) -> Option<usize>
        requires over { IsOver pool.now self.now }
        requires term { IsTermNumber pool.now term }
        ensures { MatchOption result (IsNoTerm (branch_in pool.now self.now) (term_in (item_at pool.now term))) (IsGeneration (branch_in pool.now self.now) (term_in (item_at pool.now term))) }
    {
        pool.one_number();
        self.generations.value(term)
    }

    /// Adds an entry at the end.
    pub fn push(&mut self, alloc: Global, pool: &Pool, entry: PoolEntry) -> Result<(), NoMemory>
        requires over { IsOver pool.now self.old }
        requires formula { IsFormulaNumber pool.now entry.formula }
        ensures entries { OnOk result (self.new.entries ≡ self.old.entries ++ entry ∷ []) }
        ensures over { OnOk result (IsOver pool.now self.new) }
    {
        let number = self.entries.len();
        let first = self.firsts.value(entry.formula).unwrap_or(number);
        self.firsts.write(pool.len(), entry.formula, first)?;
        self.marks.push(self.generations.len())?;
        mark(
            alloc,
            pool,
            &mut self.generations,
            entry.formula,
            entry.generation,
        )?;
        self.entries.push(entry)?;
        Ok(())
    }

    /// Removes all entries but the first `count`. It takes time linear in what it removes.
    pub fn truncate(&mut self, count: usize)
        ensures entries { self.new.entries ≡ take count self.old.entries }
        ensures over { (ns : List Node) → IsOver ns self.old → IsOver ns self.new }
    {
        let mark = self.mark_at(count);
        self.generations.truncate(mark);
        self.marks.truncate(count);
        self.firsts.truncate(count);
        self.entries.truncate(count);
    }

    // The number of changes of generations before the entry with this number.
    fn mark_at(&self, number: usize) -> usize
        ensures { result ≡ mark_at self.now number }
    {
        match self.marks.get(number) {
            Some(mark) => *mark,
            None => self.generations.len(),
        }
    }
}

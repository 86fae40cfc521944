//! A search tree while it is extended.

ghost use Rattle.std.specs.Prelude.{◌≡◌, ℕ, ◌+◌, ◌<◌, true, List, [], ◌++◌, length, vec_len, reverse, take, drop, IfOk, OnOk, MatchBool};
ghost use Rattle.fol.specs.declared.shapes.Shape.{Shape};
ghost use Rattle.fol.specs.FormulaData.{FormulaData, NotFormula};
ghost use Rattle.certificates.specs.ProofTraces.{Application};
ghost use Rattle.tableau.specs.PoolBranches.{branch_in, IsFormulaNumber, IsOver};
ghost use Rattle.tableau.specs.declared.entry.PoolEntry.{PoolEntry};
ghost use Rattle.tableau.specs.Numbers.{formula_at, AreFormulas};
ghost use Rattle.search.specs.Applications.{entry_of, IsGenerationFrom, IsExtensionOf, IsClosingOf, IsDueOn};
ghost use Rattle.search.specs.Trees.{frames, entries_of, AreWaiting, IsText, IsTree, IsResumed, HasNone};

use crate::trees::application::{Closing, Extension, PoolApplication, is_fork, origin_of};
use base::memory::NoMemory;
use certificates::branches::origin::Origin;
use std::alloc::Global;
use tableau::branch::PoolBranch;
use tableau::entry::PoolEntry;
use term_pool::pool::Pool;

/// A pending branch: the entries of the current branch before a mark, and one more.
#[derive(Clone, Copy, Debug, PartialEq, Eq)]
pub struct Waiting {
    pub mark: usize,
    pub entry: PoolEntry,
}

/// A search tree. After an `Err` it must not be used.
#[derive(Drop)]
pub struct SearchTree {
    /// The current branch.
    pub branch: PoolBranch,
    /// The pending branches. The last one is the next.
    pub waiting: Vec<Waiting>,
    /// The proof trace: the applications so far.
    pub text: Vec<PoolApplication>,
}

/// The entry for the formula.
pub fn entry_with(formula: usize, generation: usize, origin: Origin) -> PoolEntry
    ensures { result ≡ record { formula = formula; generation = generation; origin = origin } }
{
    PoolEntry {
        formula,
        generation,
        origin,
    }
}

/// The tree whose one entry is the formula with this number. `NoMemory` if memory runs out.
pub fn begin(alloc: Global, pool: &Pool, formula: usize) -> Result<SearchTree, NoMemory>
    requires { IsFormulaNumber pool.now formula }
    ensures { (shapes : List Shape) (p : FormulaData) → formula_at pool.now formula ≡ NotFormula p → IfOk result (IsTree shapes p 0 pool.now) }
{
    let mut branch = PoolBranch::new(alloc);
    branch.push(alloc, pool, entry_with(formula, 0, Origin::Other))?;
    Ok(SearchTree {
        branch,
        waiting: Vec::new(alloc),
        text: Vec::new(alloc),
    })
}

/// Appends entries to the branch. `NoMemory` if memory runs out.
pub fn push_all(
    alloc: Global,
    pool: &Pool,
    branch: &mut PoolBranch,
    extension: &Extension,
) -> Result<(), NoMemory>
    requires over { IsOver pool.now branch.old }
    requires formulas { AreFormulas pool.now extension.now.formulas.items }
    ensures over { OnOk result (IsOver pool.now branch.new) }
    ensures entries { OnOk result (branch.new.entries ≡ branch.old.entries ++ entries_of extension.now) }
{
    let origin = origin_of(extension.reason);
    for formula in extension.formulas.as_slice() {
        branch.push(
            alloc,
            pool,
            entry_with(*formula, extension.generation, origin),
        )?;
    }
    Ok(())
}

/// Adds the branches of all entries but the first to the pending ones, so that the second entry's is the next.
/// `NoMemory` if memory runs out.
pub fn push_waiting(
    waiting: &mut Vec<Waiting>,
    mark: usize,
    extension: &Extension,
) -> Result<(), NoMemory>
    requires some { 0 < length extension.now.formulas.items }
    ensures { OnOk result (reverse waiting.new.items ≡ frames mark (drop 1 (entries_of extension.now)) ++ reverse waiting.old.items) }
{
    let origin = origin_of(extension.reason);
    let mut count = extension.formulas.len();
    while count > 1 {
        count -= 1;
        let entry = entry_with(extension.formulas[count], extension.generation, origin);
        waiting.push(Waiting { mark, entry })?;
    }
    Ok(())
}

// Continues with the first entry, and makes the branches of the others pending.
fn fork(
    alloc: Global,
    pool: &Pool,
    tree: &mut SearchTree,
    extension: &Extension,
) -> Result<(), NoMemory>
    requires over { IsOver pool.now tree.old.branch }
    requires formulas { AreFormulas pool.now extension.now.formulas.items }
    requires some { 0 < length extension.now.formulas.items }
    ensures over { OnOk result (IsOver pool.now tree.new.branch) }
    ensures entries { OnOk result (tree.new.branch.entries ≡ tree.old.branch.entries ++ take 1 (entries_of extension.now)) }
    ensures waiting { OnOk result (reverse tree.new.waiting.items ≡ frames (length tree.old.branch.entries) (drop 1 (entries_of extension.now)) ++ reverse tree.old.waiting.items) }
    ensures text { OnOk result (tree.new.text ≡ tree.old.text) }
{
    let mark = tree.branch.len();
    push_waiting(&mut tree.waiting, mark, extension)?;
    let first = entry_with(
        extension.formulas[0],
        extension.generation,
        origin_of(extension.reason),
    );
    tree.branch.push(alloc, pool, first)
}

/// Applies an extension that is due, and continues with the first of the branches it leaves. `NoMemory` if memory runs
/// out.
pub fn grow(
    alloc: Global,
    pool: &Pool,
    tree: &mut SearchTree,
    extension: Extension,
) -> Result<(), NoMemory>
    requires over { IsOver pool.now tree.old.branch }
    requires formulas { AreFormulas pool.now extension.formulas.items }
    requires some { 0 < length extension.formulas.items }
    ensures { (shapes : List Shape) (p : FormulaData) (spent : ℕ) (application : Application) → IsTree shapes p spent pool.now tree.old → IsExtensionOf pool.now extension application → IsGenerationFrom (branch_in pool.now tree.old.branch) (entry_of extension.reason) extension.generation → IsDueOn shapes (branch_in pool.now tree.old.branch) application → OnOk result (IsTree shapes p (spent + 1) pool.now tree.new) }
{
    if is_fork(extension.reason) {
        fork(alloc, pool, tree, &extension)?;
    } else {
        push_all(alloc, pool, &mut tree.branch, &extension)?;
    }
    tree.text.push(PoolApplication::Grown(extension))?;
    Ok(())
}

// Continues with the next pending branch; returns false if there is none.
fn resume(alloc: Global, pool: &Pool, tree: &mut SearchTree) -> Result<bool, NoMemory>
    requires over { IsOver pool.now tree.old.branch }
    requires waiting { AreWaiting pool.now (reverse tree.old.waiting.items) }
    ensures shown { IfOk result (λ more. MatchBool more (IsResumed pool.now tree.old tree.new) (HasNone tree.old tree.new)) }
    ensures waiting { IfOk result (λ more. more ≡ true → vec_len tree.new.waiting + 1 ≡ vec_len tree.old.waiting) }
{
    match tree.waiting.pop() {
        Some(next) => {
            tree.branch.truncate(next.mark);
            tree.branch.push(alloc, pool, next.entry)?;
            Ok(true)
        }
        None => Ok(false),
    }
}

/// Applies a closing of the current branch, and continues with the next pending one; returns false if there is none.
/// `NoMemory` if memory runs out.
pub fn close(
    alloc: Global,
    pool: &Pool,
    tree: &mut SearchTree,
    closing: Closing,
) -> Result<bool, NoMemory>
    requires over { IsOver pool.now tree.old.branch }
    requires waiting { AreWaiting pool.now (reverse tree.old.waiting.items) }
    ensures shown { (shapes : List Shape) (p : FormulaData) (spent : ℕ) (application : Application) → IsTree shapes p spent pool.now tree.old → IsClosingOf pool.now closing application → IsDueOn shapes (branch_in pool.now tree.old.branch) application → IfOk result (λ more. MatchBool more (IsTree shapes p (spent + length closing.chain.items) pool.now tree.new) (IsText shapes p (spent + length closing.chain.items) pool.now tree.new.text.items [])) }
    ensures waiting { IfOk result (λ more. more ≡ true → vec_len tree.new.waiting + 1 ≡ vec_len tree.old.waiting) }
{
    tree.text.push(PoolApplication::Closed(closing))?;
    let more = resume(alloc, pool, tree)?;
    Ok(more)
}

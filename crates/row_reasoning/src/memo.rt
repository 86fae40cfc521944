//! Memoized sums of terms. In a pool a term can occur in another one many times under one number; with the memo each
//! term is taken apart at most twice.

ghost use Rattle.std.specs.Prelude.{◌≡◌, ℕ, List, [], Some, cond, nat_eq, IfOk, IfSome, OnOk};
ghost use Rattle.indexmap.specs.IndexMap.{get};
ghost use Rattle.fol.specs.FormulaData.{TermData};
ghost use Rattle.certificates.specs.Rows.{over};
ghost use Rattle.term_pool.specs.declared.node.Node.{Node};
ghost use Rattle.row_reasoning.specs.Sums.{IsKept, IsSumOf};
ghost use Rattle.row_reasoning.specs.Shapes.{term_at};
ghost use Rattle.row_reasoning.specs.Memos.{IsRight};

use crate::sum::{LinearSum, multiplied};
use base::memory::NoMemory;
use indexmap::{IndexMap, IndexSet};
use std::alloc::Global;

#[derive(Drop)]
pub(crate) struct Memo {
    /// The numbers of the terms visited so far.
    pub(crate) met: IndexSet<usize>,
    /// The sums of the terms visited twice.
    pub(crate) sums: IndexMap<usize, LinearSum>,
}

/// The memo before any term is visited.
pub(crate) fn nothing_met(alloc: Global) -> Memo
    ensures { result.sums.entries ≡ [] }
{
    Memo {
        met: IndexSet::new(alloc),
        sums: IndexMap::new(alloc),
    }
}

/// The sum kept for the term with this number.
pub(crate) fn recall(
    alloc: Global,
    memo: &Memo,
    number: usize,
) -> Result<Option<LinearSum>, NoMemory>
    ensures is { (ns : List Node) (class : TermData → ℕ) → IsRight ns class memo.now → IfOk result (λ made. IfSome made (IsSumOf (over class (term_at ns number)))) }
    ensures fits { IfOk result (λ made. IfSome made IsKept) }
{
    match memo.sums.get(&number) {
        Some(sum) => multiplied(alloc, 1, sum),
        None => Ok(None),
    }
}

/// Marks the term with this number as visited; returns whether it was visited before.
pub(crate) fn meet(memo: &mut Memo, number: usize) -> Result<bool, NoMemory>
    ensures { OnOk result (memo.new.sums ≡ memo.old.sums) }
{
    let is_first = memo.met.insert(number)?;
    Ok(!is_first)
}

// Stores the sum of the term with this number.
fn note(
    sums: &mut IndexMap<usize, LinearSum>,
    number: usize,
    sum: LinearSum,
) -> Result<(), NoMemory>
    ensures { OnOk result ((i : ℕ) → get nat_eq sums.new i ≡ cond (nat_eq number i) (Some sum) (get nat_eq sums.old i)) }
{
    sums.insert(number, sum)?;
    Ok(())
}

/// Keeps the sum of the term with this number, if it has one.
pub(crate) fn keep(
    alloc: Global,
    memo: &mut Memo,
    number: usize,
    found: &Option<LinearSum>,
) -> Result<(), NoMemory>
    ensures { (ns : List Node) (class : TermData → ℕ) → IsRight ns class memo.old → IfSome found.now (IsSumOf (over class (term_at ns number))) → OnOk result (IsRight ns class memo.new) }
{
    let Some(sum) = found else {
        return Ok(());
    };
    let Some(copy) = multiplied(alloc, 1, sum)? else {
        return Ok(());
    };
    note(&mut memo.sums, number, copy)
}

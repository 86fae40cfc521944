//! The linear constraints (rows) of a branch.

ghost use Rattle.std.specs.Prelude.{◌≡◌, ◌≤◌, ℕ, ℤ, pos, List, [], ◌∷◌, ◌++◌, length, get_or, not, IfOk, OnOk};
ghost use Rattle.std.specs.List.{AllZip};
ghost use Rattle.fol.specs.FormulaData.{TermData, FormulaData};
ghost use Rattle.linear_arith.specs.Fits.{Fits};
ghost use Rattle.certificates.specs.BranchesBranch.{formulas};
ghost use Rattle.certificates.specs.Rows.{IsClassing, AreBranchRows};
ghost use Rattle.tableau.specs.PoolBranches.{branch_in, IsOver};
ghost use Rattle.row_reasoning.specs.Sums.{signed, IsKept, IsAmong};
ghost use Rattle.row_reasoning.specs.Shapes.{IsNamedUnder};
ghost use Rattle.row_reasoning.specs.Entries.{formula_at, IsEntrySum};
ghost use Rattle.row_reasoning.specs.Rows.{AreNames, IsRowFrom, IsPut, IsWritten, IsPushed, AreDifferent, AreRowsSoFar, IsSpoken, AreClassesFrom};

use crate::entry::{EntrySum, entry_sum};
use crate::sum::{LinearSum, negated};
use base::memory::NoMemory;
use indexmap::IndexSet;
use linear_arith::rows::{LinRow, Rows};
use std::alloc::Global;
use tableau::branch::PoolBranch;
use term_pool::pool::Pool;

/// The entry from which a row comes.
#[derive(Clone, Copy, Debug, PartialEq, Eq)]
pub struct RowOrigin {
    /// The number of the entry.
    pub entry: usize,
    /// Whether the row is the second one of an equation, which states that the greater side is at most the lesser.
    pub is_turned: bool,
}

/// The comparisons of a branch as rows.
#[derive(Drop)]
pub struct BranchRows {
    /// The classes of the unknowns, in the order of their first use: unknown k of a row is the k-th class.
    pub classes: IndexSet<usize>,
    /// An inequality gives one row and an equation two; the rows are in the order of the entries.
    pub rows: Rows,
    /// The origin of each row.
    pub origins: Vec<RowOrigin>,
}

/// Returns the number, or its negation.
pub(crate) fn signed(is_negated: bool, number: i128) -> i128
    requires { Fits number }
    ensures { result ≡ signed is_negated number }
{
    if is_negated { -number } else { number }
}

fn zeros(alloc: Global, count: usize) -> Result<Vec<i128>, NoMemory>
    ensures len { IfOk result (λ numbers. length numbers.items ≡ count) }
    ensures zero { IfOk result (λ numbers. (k : ℕ) → get_or numbers.items k (pos 0) ≡ pos 0) }
{
    let mut numbers = Vec::with_capacity(alloc, count)?;
    for position in 0..count {
        numbers.push(0)?;
    }
    Ok(numbers)
}

// Writes a number at the index of a class; a class without an index gets the next one.
fn put(
    classes: &mut IndexSet<usize>,
    numbers: &mut Vec<i128>,
    class: usize,
    number: i128,
) -> Result<(), NoMemory>
    requires { length numbers.old.items ≡ length classes.old.keys }
    ensures { OnOk result (IsPut classes.old.keys numbers.old.items class number classes.new.keys numbers.new.items) }
{
    let (position, _) = classes.insert_full(class)?;
    if position < numbers.len() {
        numbers[position] = number;
        return Ok(());
    }
    numbers.push(number)?;
    Ok(())
}

// The sum as a row: the sum is at most 0. Each of its classes gets an index.
fn row_of(alloc: Global, classes: &mut IndexSet<usize>, sum: &LinearSum) -> Result<LinRow, NoMemory>
    requires { IsKept sum.now }
    ensures { IfOk result (IsWritten classes.old.keys classes.new.keys sum.now) }
{
    let mut numbers = zeros(alloc, classes.len())?;
    for position in 0..sum.coefficients.len() {
        if let Some((class, number)) = sum.coefficients.get_index(position) {
            put(
                classes,
                &mut numbers,
                *class,
                signed(sum.is_negated, *number),
            )?;
        }
    }
    let bound = signed(!sum.is_negated, sum.constant);
    Ok(LinRow::new(numbers, bound))
}

// Appends a row.
fn push_row(
    alloc: Global,
    made: &mut BranchRows,
    sum: &LinearSum,
    origin: RowOrigin,
) -> Result<(), NoMemory>
    requires { IsKept sum.now }
    ensures { OnOk result (IsPushed made.old made.new sum.now origin) }
{
    let row = row_of(alloc, &mut made.classes, sum)?;
    made.rows.push(row)?;
    made.origins.push(origin)?;
    Ok(())
}

// Appends the rows of one more entry.
fn push_entry(
    alloc: Global,
    made: &mut BranchRows,
    entry: usize,
    row: EntrySum,
) -> Result<(), NoMemory>
    requires { IsKept row.sum }
    ensures { (class : TermData → ℕ) (given : List ℕ) (ps : List FormulaData) (p : FormulaData) → length ps ≡ entry → IsEntrySum class p row → AreRowsSoFar class given ps made.old → OnOk result (AreRowsSoFar class given (ps ++ p ∷ []) made.new) }
{
    let EntrySum { sum, is_equation } = row;
    push_row(
        alloc,
        made,
        &sum,
        RowOrigin {
            entry,
            is_turned: false,
        },
    )?;
    if !is_equation {
        return Ok(());
    }
    let turned = negated(sum);
    push_row(
        alloc,
        made,
        &turned,
        RowOrigin {
            entry,
            is_turned: true,
        },
    )
}

// Appends the rows of the entry with this number and formula, if it states a comparison.
fn take_entry(
    alloc: Global,
    pool: &Pool,
    names: &[usize],
    made: &mut BranchRows,
    entry: usize,
    formula: usize,
) -> Result<(), NoMemory>
    requires { length pool.now ≤ length names.now }
    ensures { (class : TermData → ℕ) (given : List ℕ) (ps : List FormulaData) → length ps ≡ entry → IsNamedUnder pool.now formula class names.now → AreRowsSoFar class given ps made.old → OnOk result (AreRowsSoFar class given (ps ++ formula_at pool.now formula ∷ []) made.new) }
{
    match entry_sum(alloc, pool, names, formula)? {
        Some(row) => push_entry(alloc, made, entry, row),
        None => Ok(()),
    }
}

// The rows over these classes; further classes that rows need are appended to them.
pub(crate) fn rows_from(
    alloc: Global,
    pool: &Pool,
    branch: &PoolBranch,
    names: &[usize],
    classes: IndexSet<usize>,
) -> Result<BranchRows, NoMemory>
    requires over { IsOver pool.now branch.now }
    requires named { length pool.now ≤ length names.now }
    requires different { AreDifferent classes.keys }
    ensures rows { (class : TermData → ℕ) → IsClassing (branch_in pool.now branch.now) class → AreNames pool.now (branch_in pool.now branch.now) class names.now → IfOk result (λ made. AreBranchRows (branch_in pool.now branch.now) class made.classes.keys made.rows) }
    ensures origins { (class : TermData → ℕ) → IsClassing (branch_in pool.now branch.now) class → AreNames pool.now (branch_in pool.now branch.now) class names.now → IfOk result (λ made. AllZip (IsRowFrom class (formulas (branch_in pool.now branch.now)) made.classes.keys) made.rows made.origins.items) }
    ensures spoken { (class : TermData → ℕ) → IsClassing (branch_in pool.now branch.now) class → AreNames pool.now (branch_in pool.now branch.now) class names.now → IfOk result (λ made. AreClassesFrom (branch_in pool.now branch.now) class classes.keys made.classes.keys) }
{
    let mut made = BranchRows {
        classes,
        rows: Rows::new(alloc),
        origins: Vec::new(alloc),
    };
    for number in 0..branch.len() {
        if let Some(entry) = branch.entry(number) {
            take_entry(alloc, pool, names, &mut made, number, entry.formula)?;
        }
    }
    Ok(made)
}

/// Returns the comparisons of the branch as rows over whole numbers, with one unknown for each class of terms. `names`
/// gives each term of the branch the representative of its class. Each class is an unknown of some row. `NoMemory` if
/// memory runs out.
pub fn branch_rows(
    alloc: Global,
    pool: &Pool,
    branch: &PoolBranch,
    names: &[usize],
) -> Result<BranchRows, NoMemory>
    requires over { IsOver pool.now branch.now }
    requires named { length pool.now ≤ length names.now }
    ensures rows { (class : TermData → ℕ) → IsClassing (branch_in pool.now branch.now) class → AreNames pool.now (branch_in pool.now branch.now) class names.now → IfOk result (λ made. AreBranchRows (branch_in pool.now branch.now) class made.classes.keys made.rows) }
    ensures origins { (class : TermData → ℕ) → IsClassing (branch_in pool.now branch.now) class → AreNames pool.now (branch_in pool.now branch.now) class names.now → IfOk result (λ made. AllZip (IsRowFrom class (formulas (branch_in pool.now branch.now)) made.classes.keys) made.rows made.origins.items) }
    ensures spoken { (class : TermData → ℕ) → IsClassing (branch_in pool.now branch.now) class → AreNames pool.now (branch_in pool.now branch.now) class names.now → IfOk result (λ made. (n : ℕ) → IsAmong made.classes.keys n → IsSpoken (branch_in pool.now branch.now) class n) }
{
    rows_from(alloc, pool, branch, names, IndexSet::new(alloc))
}

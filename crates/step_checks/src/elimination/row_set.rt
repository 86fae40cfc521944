//! Sets of rows.

ghost use Rattle.std.specs.Prelude.{◌≡◌, ◌↔◌, [], ◌∷◌, ◌++◌, List, Contains, IsTrue, OnOk, IfOk, IfSome, IfNone};
ghost use Rattle.linear_arith.specs.Inequality.{Inequality};
ghost use Rattle.linear_arith.specs.Elimination.{AreDifferent};
ghost use Rattle.step_checks.specs.Sets.{IsSetOf};

use crate::elimination::row_list::RowList;
use base::memory::NoMemory;
use linear_arith::rows::LinRow;
use std::alloc::Global;
use std::collections::BTreeSet;

/// A set of rows.
#[derive(Drop)]
pub(crate) struct RowSet {
    /// The numbers of each row, the bound first.
    pub(crate) keys: BTreeSet<Vec<i128>>,
}

/// The numbers of a row, the bound first.
fn key_of(alloc: Global, row: &LinRow) -> Result<Vec<i128>, NoMemory>
    ensures { IfOk result (λ key. key.items ≡ row.now.bound ∷ row.now.coefficients) }
{
    let mut key = Vec::with_capacity(alloc, row.coefficients().len() + 1)?;
    key.push(row.bound())?;
    key.extend_from_slice(row.coefficients())?;
    Ok(key)
}

impl RowSet {
    /// The empty set.
    fn new(alloc: Global) -> RowSet
        ensures { IsSetOf [] result }
    {
        RowSet {
            keys: BTreeSet::new(alloc),
        }
    }

    /// Decides whether a row is in the set.
    pub(crate) fn has(&self, alloc: Global, row: &LinRow) -> Result<bool, NoMemory>
        ensures { (rows : List Inequality) → IsSetOf rows self.now → IfOk result (λ has. IsTrue has ↔ Contains rows row.now) }
    {
        let key = key_of(alloc, row)?;
        Ok(self.keys.contains(&key))
    }

    /// Adds a row; returns whether it was new.
    fn add(&mut self, alloc: Global, row: &LinRow) -> Result<bool, NoMemory>
        ensures rows { (rows : List Inequality) → IsSetOf rows self.old → OnOk result (IsSetOf (rows ++ row.now ∷ []) self.new) }
        ensures fresh { (rows : List Inequality) → IsSetOf rows self.old → IfOk result (λ fresh. IsTrue fresh ↔ (Contains rows row.now → ⊥)) }
    {
        Ok(self.keys.insert(key_of(alloc, row)?)?)
    }
}

/// The set of rows that are all distinct. `None` if two of them are equal.
pub(crate) fn set_of(alloc: Global, rows: &RowList<'_>) -> Result<Option<RowSet>, NoMemory>
    ensures some { IfOk result (λ made. IfSome made (IsSetOf rows.now)) }
    ensures different { IfOk result (λ made. IfSome made (λ _. AreDifferent rows.now)) }
    ensures none { IfOk result (λ made. IfNone made (AreDifferent rows.now → ⊥)) }
{
    let mut set = RowSet::new(alloc);
    for i in 0..rows.len() {
        if !set.add(alloc, rows.at(i))? {
            return Ok(None);
        }
    }
    Ok(Some(set))
}

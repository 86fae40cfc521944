//! Lists of borrowed rows.

ghost use Rattle.std.specs.Prelude.{◌≡◌, [], ◌∷◌, ◌++◌, ◌<◌, length, slice_index_or, OnOk, IfOk};
ghost use Rattle.step_checks.specs.Given.{rows_of};

use crate::elimination::GivenRow;
use base::memory::NoMemory;
use linear_arith::rows::LinRow;
use std::alloc::Global;
use std::marker::Model;

/// Borrowed rows, in order.
#[derive(Drop)]
pub(crate) struct RowList<'a> {
    items: Vec<&'a LinRow>,
}

impl<'a> Model for RowList<'a> {
    ghost use Rattle.std.specs.Prelude.{List, map};
    ghost use Rattle.linear_arith.specs.Inequality.{Inequality};

    ghost Value = { List Inequality };

    ghost view = { λ l. map (λ row. row.now) l.items.items };
}

impl<'a> RowList<'a> {
    /// The empty list.
    pub(crate) fn new(alloc: Global) -> RowList<'a>
        ensures { result ≡ [] }
    {
        RowList {
            items: Vec::new(alloc),
        }
    }

    /// The number of rows.
    pub(crate) fn len(&self) -> usize
        ensures { result ≡ length self.now }
    {
        self.items.len()
    }

    /// The row of this number.
    pub(crate) fn at(&self, i: usize) -> &'a LinRow
        requires { i < length self.now }
        ensures { result.now ≡ slice_index_or self.now i result.now }
    {
        self.items[i]
    }

    /// Appends a row.
    pub(crate) fn push(&mut self, row: &'a LinRow) -> Result<(), NoMemory>
        ensures { OnOk result (self.new ≡ self.old ++ row.now ∷ []) }
    {
        self.items.push(row)?;
        Ok(())
    }
}

/// The rows of a given elimination.
pub(crate) fn rows_in<'a>(alloc: Global, made: &'a [GivenRow]) -> Result<RowList<'a>, NoMemory>
    ensures { IfOk result (λ rows. rows ≡ rows_of made.now) }
{
    let mut rows = RowList::new(alloc);
    for one in made {
        rows.push(&one.row)?;
    }
    Ok(rows)
}

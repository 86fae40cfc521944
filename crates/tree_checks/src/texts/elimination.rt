//! An elimination of rows, with the origin of each row.

use base::memory::NoMemory;
use linear_arith::rows::{Fraction, LinRow, Rows};
use linear_arith::sums::sum_of_rows;
use std::alloc::Global;
use std::collections::BTreeSet;
use std::mem;
use step_checks::elimination::{GivenElimination, GivenRow, Origin, Summands};

// An elimination has fewer distinct rows than this, over all its stages.
const MOST_ROWS: usize = 5000;

// An elimination in progress.
#[derive(Drop)]
struct Maker {
    alloc: Global,
    // The distinct rows of all stages.
    rows: Vec<GivenRow>,
    // The numbers of these rows, the bound first.
    keys: BTreeSet<Vec<i128>>,
    // The indexes of the rows of this stage.
    live: Vec<usize>,
}

// The indexes of the rows with an unknown.
#[derive(Drop)]
struct Sides {
    // With a positive coefficient.
    upper: Vec<usize>,
    // With a negative coefficient.
    lower: Vec<usize>,
}

fn key_of(alloc: Global, row: &LinRow) -> Result<Vec<i128>, NoMemory> {
    let mut key = Vec::new(alloc);
    key.push(row.bound())?;
    key.extend_from_slice(row.coefficients())?;
    Ok(key)
}

impl Maker {
    // The coefficient of an unknown in the row at an index; 0 if there is none.
    fn coefficient(&self, position: usize, unknown: usize) -> i128 {
        match self.rows.get(position) {
            Some(made) => made.row.coefficient(unknown),
            None => 0,
        }
    }

    // Adds a row to this stage, unless it is there already.
    fn add(&mut self, row: LinRow, origin: Origin) -> Result<(), NoMemory> {
        let key = key_of(self.alloc, &row)?;
        if self.keys.insert(key)? {
            self.live.push(self.rows.len())?;
            self.rows.push(GivenRow { row, origin })?;
        }
        Ok(())
    }

    // Removes the rows with the unknown from this stage.
    fn split(&mut self, unknown: usize) -> Result<Sides, NoMemory> {
        let mut sides = Sides {
            upper: Vec::new(self.alloc),
            lower: Vec::new(self.alloc),
        };
        let live = mem::replace(&mut self.live, Vec::new(self.alloc));
        for position in live {
            let coefficient = self.coefficient(position, unknown);
            if coefficient > 0 {
                sides.upper.push(position)?;
            } else if coefficient < 0 {
                sides.lower.push(position)?;
            } else {
                self.live.push(position)?;
            }
        }
        Ok(sides)
    }

    // Adds the sum of two rows; returns false if it overflows 128 bits or there are too many rows.
    fn add_sum(&mut self, unknown: usize, of: Summands) -> Result<bool, NoMemory> {
        let Some(upper) = self.rows.get(of.upper) else {
            return Ok(false);
        };
        let Some(lower) = self.rows.get(of.lower) else {
            return Ok(false);
        };
        let Some(sum) = sum_of_rows(self.alloc, unknown, &upper.row, &lower.row)? else {
            return Ok(false);
        };
        self.add(sum, Origin::Sum(of))?;
        Ok(self.rows.len() < MOST_ROWS)
    }

    // Continues with the next stage: the rows without the unknown, and the sums of two rows that cancel it.
    fn eliminate(&mut self, step: usize, unknown: usize) -> Result<bool, NoMemory> {
        let sides = self.split(unknown)?;
        for upper in sides.upper.as_slice() {
            for lower in sides.lower.as_slice() {
                let of = Summands {
                    step,
                    upper: *upper,
                    lower: *lower,
                };
                if !self.add_sum(unknown, of)? {
                    return Ok(false);
                }
            }
        }
        Ok(true)
    }
}

// The unknowns of the values, the last one first.
fn unknowns_of(alloc: Global, values: &[Fraction]) -> Result<Vec<usize>, NoMemory> {
    let mut unknowns = Vec::new(alloc);
    for value in values {
        unknowns.push(value.unknown)?;
    }
    unknowns.reverse();
    Ok(unknowns)
}

// The first stage: the rows, padded to as many coefficients as the longest has, without duplicates.
fn begun(alloc: Global, rows: &[LinRow]) -> Result<Maker, NoMemory> {
    let mut width = 0;
    for row in rows {
        width = width.max(row.coefficients().len());
    }
    let mut maker = Maker {
        alloc,
        rows: Vec::new(alloc),
        keys: BTreeSet::new(alloc),
        live: Vec::new(alloc),
    };
    for position in 0..rows.len() {
        maker.add(
            rows[position].padded(alloc, width)?,
            Origin::Given(position),
        )?;
    }
    Ok(maker)
}

/// Returns the elimination of the unknowns of these rows after which the values were chosen, the unknown of the last
/// value first. `None` if a sum of two rows overflows 128 bits, or if the elimination reaches 5,000 rows. `NoMemory` if
/// memory runs out.
pub(crate) fn elimination_of(
    alloc: Global,
    rows: &Rows,
    values: &[Fraction],
) -> Result<Option<GivenElimination>, NoMemory> {
    let unknowns = unknowns_of(alloc, values)?;
    let mut maker = begun(alloc, rows.as_slice())?;
    for step in 0..unknowns.len() {
        if !maker.eliminate(step, unknowns[step])? {
            return Ok(None);
        }
    }
    let Maker {
        alloc: _,
        rows,
        keys: _,
        live: _,
    } = maker;
    Ok(Some(GivenElimination { unknowns, rows }))
}

//! Given Fourier-Motzkin eliminations.

mod bounds;
pub mod checks;
mod choices;
pub mod laws;
mod number_set;
mod origins;
mod rests;
mod row_list;
mod row_set;
mod rows;
mod stages;
mod sums;
pub mod values;

use linear_arith::rows::LinRow;

/// The two rows whose sum a row is.
#[derive(Clone, Copy, Debug)]
pub struct Summands {
    /// The index of the cancelled unknown among the eliminated ones.
    pub step: usize,
    /// The number of the row in which it has a positive coefficient.
    pub upper: usize,
    /// The number of the row in which it has a negative coefficient.
    pub lower: usize,
}

/// The origin of a row of an elimination.
#[derive(Clone, Copy, Debug)]
pub enum Origin {
    /// The row of the system with this number, padded to as many coefficients as the longest row has.
    Given(usize),
    /// The sum of two earlier rows of the elimination.
    Sum(Summands),
}

/// A row of an elimination, with its origin.
#[derive(Drop)]
pub struct GivenRow {
    pub row: LinRow,
    pub origin: Origin,
}

/// An elimination of unknowns from the rows of a system.
#[derive(Drop)]
pub struct GivenElimination {
    /// The unknowns, in the order in which they are eliminated.
    pub unknowns: Vec<usize>,
    /// The distinct rows of all stages.
    pub rows: Vec<GivenRow>,
}

//! How a search ends.

use crate::trees::application::Closing;
use crate::values::OpenValues;
use linear_arith::rows::{LinRow, Rows};

/// Why a search ends.
#[derive(Drop)]
pub enum End {
    /// No branch is open.
    Proved,
    /// The current branch is saturated, and these values satisfy its rows, whole ones for numbers.
    Open(OpenValues),
    /// No step of the budget is left.
    Spent,
    /// The budget ends within the explanation of a closing of the current branch, after this many of its steps.
    SpentInChain(Closing, usize),
    /// An elimination of the current branch's rows reaches two rows whose sum overflows 128 bits.
    Wide(LinRow, LinRow),
    /// An elimination of the current branch's rows reaches the limit of 5,000 rows: these.
    TooManyRows(Rows),
    /// No certificate can extend the current branch: it has or would exceed the maximal length of a branch, or it has a
    /// formula that is too deep or a variable with the greatest number.
    Full,
}

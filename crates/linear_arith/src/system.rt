//! A system of constraints and its width.

ghost use Rattle.std.specs.Prelude.{◌≡◌, ◌≤◌, ◌<◌, ℕ, length, All};
ghost use Rattle.linear_arith.specs.Fits.{IsFitting};
ghost use Rattle.linear_arith.specs.Inequality.{IsWithinWidth};

use crate::rows::LinRow;

/// Constraints whose numbers fit, and a number above that of each unknown in them.
#[derive(Clone, Copy)]
pub struct System<'a> {
    pub rows: &'a [LinRow],
    pub width: usize,
    ghost within: { IsWithinWidth width rows.now },
    ghost fits: { All IsFitting rows.now },
}

impl<'a> System<'a> {
    /// Returns the system of these constraints.
    pub fn new(rows: &'a [LinRow]) -> System<'a>
        requires { All IsFitting rows.now }
        ensures { result.rows.now ≡ rows.now }
    {
        let mut width = 0;
        for row in rows {
            width = width.max(row.coefficients().len());
        }
        System { rows, width }
    }
}

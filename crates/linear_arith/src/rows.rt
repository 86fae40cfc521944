//! Linear constraints, systems of them, and the answers of an elimination.

ghost use Rattle.std.specs.Prelude.{◌≡◌, ◌∷◌, ◌++◌, [], OnOk, OnErr, IfOk, map, FitsSigned};
ghost use Rattle.std.specs.List.{range_with_len};
ghost use Rattle.std.specs.Int.{w128};
ghost use Rattle.std.specs.Prelude.{IsTrue, ◌↔◌, All, pos, ◌<ℤ◌, ◌≤ℤ◌};
ghost use Rattle.linear_arith.specs.Fits.{IsFitting};
ghost use Rattle.linear_arith.specs.Inequality.{coefficient};

use crate::numbers::{are_fitting, fitting};
use base::memory::NoMemory;
use std::alloc::Global;
use std::marker::Model;

/// A linear constraint: the sum of the coefficients times the unknowns is at most the bound. Unknowns are numbered from
/// 0; a missing coefficient is 0.
#[derive(Drop)]
pub struct LinRow {
    coefficients: Vec<i128>,
    bound: i128,
}

impl Model for LinRow {
    ghost use Rattle.linear_arith.specs.Inequality.{Inequality};

    ghost Value = { Inequality };

    ghost view = { λ r. record { coefficients = r.coefficients.items; bound = r.bound } };
}

impl LinRow {
    /// Returns the constraint with these coefficients and this bound.
    pub fn new(coefficients: Vec<i128>, bound: i128) -> LinRow
        ensures { result ≡ record { coefficients = coefficients.items; bound = bound } }
    {
        LinRow {
            coefficients,
            bound,
        }
    }

    /// Returns the coefficients of the unknowns 0, 1, ..
    pub fn coefficients(&self) -> &[i128]
        ensures { result.now ≡ self.now.coefficients }
    {
        self.coefficients.as_slice()
    }

    /// Returns the bound of the sum.
    pub fn bound(&self) -> i128
        ensures { result ≡ self.now.bound }
    {
        self.bound
    }

    /// Returns the coefficients, and drops the constraint.
    pub fn into_coefficients(self) -> Vec<i128>
        ensures { result.items ≡ self.coefficients }
    {
        let LinRow {
            coefficients,
            bound: _,
        } = self;
        coefficients
    }

    /// Returns a copy of the constraint.
    pub fn try_clone(&self, alloc: Global) -> Result<LinRow, NoMemory>
        ensures { IfOk result (λ row. row ≡ self.now) }
    {
        Ok(LinRow {
            coefficients: Vec::from_slice(alloc, self.coefficients.as_slice())?,
            bound: self.bound,
        })
    }
}

/// Constraints, in order.
#[derive(Drop)]
pub struct Rows {
    items: Vec<LinRow>,
}

impl Model for Rows {
    ghost use Rattle.std.specs.Prelude.{List};
    ghost use Rattle.linear_arith.specs.Inequality.{Inequality};

    ghost Value = { List Inequality };

    ghost view = { λ r. r.items.items };
}

impl Rows {
    /// Returns the empty list.
    pub fn new(alloc: Global) -> Rows
        ensures { result ≡ [] }
    {
        Rows {
            items: Vec::new(alloc),
        }
    }

    /// Returns the constraints, in order.
    pub fn as_slice(&self) -> &[LinRow]
        ensures { result.now ≡ self.now }
    {
        self.items.as_slice()
    }

    /// Decides whether all numbers of the constraints fit 128 bits, as their negations do.
    pub fn fit(&self) -> bool
        ensures { IsTrue result ↔ All IsFitting self.now }
    {
        self.items.iter().all(|row| row.fits())
    }

    /// Adds a constraint at the end. After `NoMemory` the list is unchanged.
    pub fn push(&mut self, row: LinRow) -> Result<(), NoMemory>
        ensures ok { OnOk result (self.new ≡ self.old ++ row ∷ []) }
        ensures err { OnErr result (self.new ≡ self.old) }
    {
        self.items.push(row)?;
        Ok(())
    }
}

/// Multipliers of given constraints, one for each, in order.
#[derive(Drop)]
pub struct Multipliers {
    items: Vec<i128>,
}

impl Model for Multipliers {
    ghost use Rattle.std.specs.Prelude.{List};
    ghost use Rattle.std.proofs.Common.{ℤ};

    ghost Value = { List ℤ };

    ghost view = { λ m. m.items.items };
}

impl Multipliers {
    /// Returns these multipliers.
    pub fn new(items: Vec<i128>) -> Multipliers
        ensures { result ≡ items.items }
    {
        Multipliers { items }
    }

    /// Returns the multipliers, in order.
    pub fn as_slice(&self) -> &[i128]
        ensures { result.now ≡ self.now }
    {
        self.items.as_slice()
    }
}

/// The value of an unknown: the number of the unknown, and the numerator and denominator of the value. The denominator
/// is at least 1.
#[derive(Clone, Copy, Debug)]
pub struct Fraction {
    pub unknown: usize,
    pub numerator: i128,
    pub denominator: i128,
}

/// Values of unknowns, in the order in which they are chosen.
#[derive(Drop)]
pub struct Fractions {
    items: Vec<Fraction>,
}

impl Model for Fractions {
    ghost use Rattle.std.specs.Prelude.{List};
    ghost use Rattle.linear_arith.specs.declared.rows.Fraction.{Fraction};

    ghost Value = { List Fraction };

    ghost view = { λ f. f.items.items };
}

impl Fractions {
    /// Returns the empty list.
    pub fn new(alloc: Global) -> Fractions
        ensures { result ≡ [] }
    {
        Fractions {
            items: Vec::new(alloc),
        }
    }

    /// Returns these values.
    pub fn from_values(items: Vec<Fraction>) -> Fractions
        ensures { result ≡ items.items }
    {
        Fractions { items }
    }

    /// Returns the values, in the order in which they are chosen.
    pub fn as_slice(&self) -> &[Fraction]
        ensures { result.now ≡ self.now }
    {
        self.items.as_slice()
    }

    /// Adds a value at the end. After `NoMemory` the list is unchanged.
    pub fn push(&mut self, value: Fraction) -> Result<(), NoMemory>
        ensures ok { OnOk result (self.new ≡ self.old ++ value ∷ []) }
        ensures err { OnErr result (self.new ≡ self.old) }
    {
        self.items.push(value)?;
        Ok(())
    }
}

/// The answer of an elimination.
#[derive(Drop)]
pub enum LinAnswer {
    /// The constraints have no solution: these multipliers combine them to a contradiction.
    Infeasible(Multipliers),
    /// These values meet all constraints.
    Feasible(Fractions),
    /// The sum of these two constraints is not in 128 bits.
    Wide(LinRow, LinRow),
    /// The elimination reaches 5,000 constraints, which are these.
    TooManyRows(Rows),
}

impl LinRow {
    /// Returns the coefficient of an unknown; a missing one is 0.
    pub fn coefficient(&self, unknown: usize) -> i128
        ensures { result ≡ coefficient unknown self.now }
    {
        self.coefficients.get(unknown).copied().unwrap_or(0)
    }

    /// Returns the constraint with the coefficients of the first `width` unknowns.
    pub fn padded(&self, alloc: Global, width: usize) -> Result<LinRow, NoMemory>
        ensures padded { IfOk result (λ row. row ≡ record { coefficients = map (λ u. coefficient u self.now) (range_with_len 0 width); bound = self.now.bound }) }
        ensures fits { FitsSigned w128 self.now.bound }
    {
        let bound = self.bound;
        let mut coefficients = Vec::with_capacity(alloc, width)?;
        for unknown in 0..width {
            coefficients.push(self.coefficient(unknown))?;
        }
        Ok(LinRow {
            coefficients,
            bound,
        })
    }

    /// Decides whether all numbers of the constraint fit 128 bits, as their negations do.
    pub fn fits(&self) -> bool
        ensures { IsTrue result ↔ IsFitting self.now }
    {
        match fitting(self.bound()) {
            Some(_) => are_fitting(self.coefficients()),
            None => false,
        }
    }

    /// Decides whether no unknown is left.
    pub fn is_without_unknowns(&self) -> bool
        ensures { IsTrue result ↔ All (λ c. c ≡ pos 0) self.now.coefficients }
    {
        self.coefficients.iter().all(|c| *c == 0)
    }

    /// Decides whether the constraint is that 0 is at most a negative number.
    pub fn is_contradiction(&self) -> bool
        ensures { IsTrue result
            ↔ ((self.now.bound <ℤ pos 0) × All (λ c. c ≡ pos 0) self.now.coefficients) }
    {
        self.bound < 0 && self.is_without_unknowns()
    }
}

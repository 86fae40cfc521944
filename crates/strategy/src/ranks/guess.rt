//! Values that satisfied the rows of a branch.

use base::memory::NoMemory;
use indexmap::IndexMap;
use std::alloc::Global;

/// A fraction.
#[derive(Clone, Copy, Debug)]
pub struct Quotient {
    pub numerator: i128,
    pub denominator: i128,
}

/// The values from the last solution of a branch's rows.
#[derive(Drop)]
pub struct Guess {
    // The representatives of the classes of terms, by number.
    names: Vec<usize>,
    // The values of classes, by representative.
    values: IndexMap<usize, Quotient>,
}

impl Guess {
    /// The guess without values, for classes with these representatives: that of each term, by number.
    pub fn new(alloc: Global, names: Vec<usize>) -> Guess {
        Guess {
            names,
            values: IndexMap::new(alloc),
        }
    }

    /// Stores the value of the class with this representative. `NoMemory` if memory runs out.
    pub fn note(&mut self, name: usize, value: Quotient) -> Result<(), NoMemory> {
        self.values.insert(name, value)?;
        Ok(())
    }

    /// The value of the class of a term; `None` if it has none.
    pub fn value(&self, term: usize) -> Option<Quotient> {
        if term >= self.names.len() {
            return None;
        }
        match self.values.get(&self.names[term]) {
            Some(value) => Some(*value),
            None => None,
        }
    }
}

/// A whole number as a fraction.
pub fn whole(number: i128) -> Quotient {
    Quotient {
        numerator: number,
        denominator: 1,
    }
}

/// The numerators of two fractions over the product of their denominators; `None` on overflow of 128 bits.
pub fn over_one(left: Quotient, right: Quotient) -> Option<(i128, i128)> {
    let first = left.numerator.checked_mul(right.denominator)?;
    let second = right.numerator.checked_mul(left.denominator)?;
    Some((first, second))
}

/// The sum of two fractions; `None` on overflow of 128 bits.
pub fn sum(left: Quotient, right: Quotient) -> Option<Quotient> {
    let (first, second) = over_one(left, right)?;
    Some(Quotient {
        numerator: first.checked_add(second)?,
        denominator: left.denominator.checked_mul(right.denominator)?,
    })
}

/// The difference of two fractions; `None` on overflow of 128 bits.
pub fn difference(left: Quotient, right: Quotient) -> Option<Quotient> {
    let (first, second) = over_one(left, right)?;
    Some(Quotient {
        numerator: first.checked_sub(second)?,
        denominator: left.denominator.checked_mul(right.denominator)?,
    })
}

/// The product of two fractions; `None` on overflow of 128 bits.
pub fn product(left: Quotient, right: Quotient) -> Option<Quotient> {
    Some(Quotient {
        numerator: left.numerator.checked_mul(right.numerator)?,
        denominator: left.denominator.checked_mul(right.denominator)?,
    })
}

/// The whole number equal to a fraction; `None` if the fraction is not whole.
pub fn whole_number(value: Quotient) -> Option<i128> {
    let rest = value.numerator.checked_rem(value.denominator)?;
    if rest != 0 {
        return None;
    }
    value.numerator.checked_div(value.denominator)
}

//! Natural numbers.

ghost use Rattle.std.specs.Prelude.{◌≡◌, ◌↔◌, ◌≤◌, ◌+◌, ◌*◌, IsTrue, IfOk};

use crate::naturals::digits;
use base::memory::NoMemory;
use std::alloc::Global;
use std::marker::Model;

/// A natural number of any size.
#[derive(Drop)]
pub struct BigNatural {
    // The least significant digit first; the most significant one may be 0.
    digits: Vec<u64>,
}

impl Model for BigNatural {
    ghost use Rattle.std.specs.Prelude.{ℕ};
    ghost use Rattle.step_checks.specs.Digits.{number_of};

    ghost Value = { ℕ };

    ghost view = { λ n. number_of n.digits.items };
}

impl BigNatural {
    /// The natural number. `NoMemory` if memory runs out.
    pub fn new(alloc: Global, number: u128) -> Result<BigNatural, NoMemory>
        ensures { IfOk result (λ made. made ≡ number) }
    {
        let mut parts = Vec::with_capacity(alloc, 2)?;
        parts.push((number % digits::BASE) as u64)?;
        parts.push((number / digits::BASE) as u64)?;
        Ok(BigNatural { digits: parts })
    }

    /// The sum of two numbers. `NoMemory` if memory runs out.
    pub fn plus(&self, alloc: Global, other: &BigNatural) -> Result<BigNatural, NoMemory>
        ensures { IfOk result (λ sum. sum ≡ self.now + other.now) }
    {
        let digits = digits::sum(alloc, self.digits.as_slice(), other.digits.as_slice())?;
        Ok(BigNatural { digits })
    }

    /// The product of the number and another one. `NoMemory` if memory runs out.
    pub fn times(&self, alloc: Global, factor: u128) -> Result<BigNatural, NoMemory>
        ensures { IfOk result (λ product. product ≡ self.now * factor) }
    {
        let low = (factor % digits::BASE) as u64;
        let high = (factor / digits::BASE) as u64;
        let product = digits::times_digit(alloc, self.digits.as_slice(), low)?;
        if high == 0 {
            return Ok(BigNatural { digits: product });
        }
        let more = digits::times_digit(alloc, self.digits.as_slice(), high)?;
        let moved = digits::moved_up(alloc, more.as_slice())?;
        let digits = digits::sum(alloc, product.as_slice(), moved.as_slice())?;
        Ok(BigNatural { digits })
    }

    /// Decides whether the number is at most the other one.
    pub fn is_at_most(&self, other: &BigNatural) -> bool
        ensures { IsTrue result ↔ (self.now ≤ other.now) }
    {
        digits::is_at_most(self.digits.as_slice(), other.digits.as_slice())
    }
}

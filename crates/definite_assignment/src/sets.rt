//! Sets of 64 locals.

ghost use Rattle.std.specs.Prelude.{◌≡◌, ◌<◌, ◌&&◌, ◌||◌, ℕ, true, false, not, eqb, ltb, IsTrue, ◌↔◌};
ghost use Rattle.definite_assignment.specs.Sets.{has};

/// A set of some of 64 locals, by their positions among these.
#[derive(Clone, Copy)]
pub struct LocalSet {
    pub bits: u64,
}

/// The locals of a set whose bits are not among these.
fn without_bits(locals: LocalSet, taken: u64) -> LocalSet
    ensures { (i : ℕ) → i < 64 → has result i ≡ (has locals i && not (has (record { bits = taken }) i)) }
{
    LocalSet {
        bits: locals.bits & !taken,
    }
}

/// Decides whether some local has its bit among these.
fn are_some(bits: u64) -> bool
    ensures { IsTrue result ↔ ((i : ℕ) × (i < 64) × (has (record { bits = bits }) i ≡ true)) }
{
    bits != 0
}

impl LocalSet {
    /// Returns the empty set.
    pub fn none() -> LocalSet
        ensures { (i : ℕ) → has result i ≡ false }
    {
        LocalSet { bits: 0 }
    }

    /// Returns the set of all 64 locals.
    pub fn all() -> LocalSet
        ensures { (i : ℕ) → i < 64 → has result i ≡ true }
    {
        LocalSet { bits: u64::MAX }
    }

    /// Returns the set of one local.
    pub fn one(index: u32) -> LocalSet
        requires { index < 64 }
        ensures { (i : ℕ) → has result i ≡ eqb index i }
    {
        LocalSet { bits: 1 << index }
    }

    /// Returns the set of the first so many locals.
    pub fn first(count: u32) -> LocalSet
        requires { count < 64 }
        ensures { (i : ℕ) → has result i ≡ ltb i count }
    {
        let next: u64 = 1 << count;
        LocalSet { bits: next - 1 }
    }

    /// The union of two sets.
    pub fn union(self, other: LocalSet) -> LocalSet
        ensures { (i : ℕ) → has result i ≡ (has self i || has other i) }
    {
        LocalSet {
            bits: self.bits | other.bits,
        }
    }

    /// The intersection of two sets.
    pub fn both(self, other: LocalSet) -> LocalSet
        ensures { (i : ℕ) → has result i ≡ (has self i && has other i) }
    {
        LocalSet {
            bits: self.bits & other.bits,
        }
    }

    /// The locals that are not in the other set.
    pub fn without(self, other: LocalSet) -> LocalSet
        ensures { (i : ℕ) → i < 64 → has result i ≡ (has self i && not (has other i)) }
    {
        without_bits(self, other.bits)
    }

    /// Decides whether some local is in the set.
    pub fn is_some(self) -> bool
        ensures { IsTrue result ↔ ((i : ℕ) × (i < 64) × (has self i ≡ true)) }
    {
        are_some(self.bits)
    }
}

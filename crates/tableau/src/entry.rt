//! The entries of a branch.

use certificates::branches::origin::Origin;

/// An entry of a branch, with its formula by number.
#[derive(Clone, Copy, Debug, PartialEq, Eq)]
pub struct PoolEntry {
    /// The number of its formula in the pool.
    pub formula: usize,
    /// The number of gamma instances (instantiations) that led to it.
    pub generation: usize,
    /// The rule that added it.
    pub origin: Origin,
}

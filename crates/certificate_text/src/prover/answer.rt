//! The answers for a formula.

use search::search::Outcome;
use term_pool::pool::Pool;

/// A search that has ended, with the pool of its formulas.
#[derive(Drop)]
pub struct Search {
    pub pool: Pool,
    pub outcome: Outcome,
}

/// The answer for a formula.
#[derive(Drop)]
pub enum Answer {
    /// The search has ended with this outcome. If it has proved the formula, the certificate has at most 4 MiB, and
    /// the tree has only its trace, over a pool of the nodes that the trace needs.
    Ended(Search),
    /// The search has proved the formula, but the certificate has this many bytes, which are more than 4 MiB; 2^64 - 1
    /// represents all greater numbers.
    TooLong(Search, u64),
    /// The formula has this numeral, which is at least 2^127 and not 2^128 - 1, and nothing was searched.
    WideNumeral(u128),
}

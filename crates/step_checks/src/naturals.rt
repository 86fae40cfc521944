//! Natural numbers of any size: their sums and products, and which of two is the greater.

mod digits;
pub mod natural;

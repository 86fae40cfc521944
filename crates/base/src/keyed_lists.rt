//! Lists of numbers by key, and sets of pairs of numbers.

pub mod lists;
pub mod pairs;

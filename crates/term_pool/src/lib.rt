//! A pool of terms and formulas in which equal ones have one number (hash-consing).
#![tactic(auto)]

pub mod forms;
pub mod interning;
pub mod node;
pub mod numbers;
pub mod pool;
pub mod pool_substitution;
pub mod reading;
pub mod variables;

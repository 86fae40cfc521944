//! Decides whether a decision on two given terms is due: checks of one pair, by number.

pub mod cuts;
pub mod denials;
pub mod indexes;
pub mod numbers;

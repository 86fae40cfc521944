//! Tests of the front end: scopes, tables and limits, and sums that are read off trees built by hand.
#![tactic(auto)]

#[cfg(test)]
mod limit_tests;
#[cfg(test)]
mod loop_tests;
#[cfg(test)]
mod name_tests;
#[cfg(test)]
mod program_tests;
#[cfg(test)]
mod sum_read_tests;

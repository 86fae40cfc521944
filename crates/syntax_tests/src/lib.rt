//! Tests of tokens and of source trees: limits, faults, and trees that are built by hand.
#![tactic(auto)]

#[cfg(test)]
mod clause_tree_tests;
#[cfg(test)]
mod explain_tests;
#[cfg(test)]
mod move_tree_tests;
#[cfg(test)]
mod slot_tests;
#[cfg(test)]
mod texts;
#[cfg(test)]
mod token_tests;

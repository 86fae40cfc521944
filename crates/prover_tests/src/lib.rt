//! Tests of the prover: pools of terms and formulas, the classes of terms, branches and the steps that their entries ask
//! for, and searches as a whole over formulas whose answers are known.
#![tactic(auto)]

#[cfg(test)]
mod branch_tests;
#[cfg(test)]
mod claims;
#[cfg(test)]
mod class_tests;
#[cfg(test)]
mod entered;
#[cfg(test)]
mod history_tests;
#[cfg(test)]
mod name_tests;
#[cfg(test)]
mod number_tests;
#[cfg(test)]
mod pool_text_tests;
#[cfg(test)]
mod prover_tests;
#[cfg(test)]
mod searches;
#[cfg(test)]
mod step_tests;
#[cfg(test)]
mod structs;
#[cfg(test)]
mod text_tests;
#[cfg(test)]
mod texts;
#[cfg(test)]
mod word_tests;
#[cfg(test)]
mod words;

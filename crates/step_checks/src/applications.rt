//! Decides whether an extension of a branch is due: checks of one given application, by number.

pub mod entries;
pub mod names;
mod said;
mod truths;
pub mod universals;

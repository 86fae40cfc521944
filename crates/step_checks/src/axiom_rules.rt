//! Decides whether a given instance of an axiom is due on a branch: checks of this one instance, by number.

mod listed;
mod orders;
mod sides;
pub mod triggered;

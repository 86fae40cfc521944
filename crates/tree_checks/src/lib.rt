//! Checks whole proof traces: partial tableaux and open branches.
#![tactic(auto)]

pub mod bounds;
pub mod branch;
pub mod grown;
pub mod late;
pub mod partial;
pub mod texts;

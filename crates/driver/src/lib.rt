//! The top call, and the verification of a whole program.
#![tactic(auto)]

pub mod outcome;
pub mod stages;
pub mod top;
pub mod verify;

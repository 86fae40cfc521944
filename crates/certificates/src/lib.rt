//! Certificates, their checker, their bytes, and the branches of a tableau.
#![tactic(auto)]

pub mod branch;
pub mod branches;
pub mod bytes;
pub mod certificate;
pub mod checker;
pub mod closing;
mod forks;
pub mod linear;
mod open;
pub mod quantified;
pub mod rewriting;
mod steps;
pub mod tableau;
mod waiting;

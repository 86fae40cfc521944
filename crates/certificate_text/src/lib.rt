//! From a proof trace to a certificate, and the prover of one formula.
#![tactic(auto)]

pub mod lengths;
pub mod pools;
pub mod prover;
pub mod trees;

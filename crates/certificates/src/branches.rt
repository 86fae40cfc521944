//! Branches of a search for a proof, and the rule applications that are due on them.

pub mod laws;
pub mod origin;

//! Certificates of proof traces: trees of formulas are built from numbers only when a certificate is written.

pub mod certificate;
pub mod laws;
mod moves;

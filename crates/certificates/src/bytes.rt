//! The lengths of formulas and certificates in bytes.

pub mod cert_len;
pub mod laws;
mod lengths;
mod moves;

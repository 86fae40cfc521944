//! The length of a certificate in bytes, computed over the pool before any tree is built.

pub mod certificate;
pub mod items;

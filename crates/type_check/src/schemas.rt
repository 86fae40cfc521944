//! Included schemas: each is judged once for the types that it is included with, however often it is included.

pub mod broken;
mod closing;
pub mod known;
mod leading;

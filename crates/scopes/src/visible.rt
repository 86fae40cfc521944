//! Whether code respects the visibility of other modules' declarations.

pub mod first;
mod node;

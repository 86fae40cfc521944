//! Type variables, what is known of their types, and their unification.

pub mod heads;
pub mod joins;
pub mod open;
pub mod parts;
pub mod roots;
pub mod signature;
pub mod slots;
pub mod sorts;
pub mod variables;

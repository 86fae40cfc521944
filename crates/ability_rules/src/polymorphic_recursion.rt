//! Polymorphic recursion: functions of which a type parameter comes back to itself inside another type, over any number
//! of calls.

mod edges;
pub mod known;
mod rows;
pub mod wrapping;

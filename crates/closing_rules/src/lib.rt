//! How a branch is closed: by a clash, up to congruence, or by its linear constraints.
#![tactic(auto)]

pub mod clashes;
pub mod class_closings;
pub mod closings;
pub mod row_closings;
pub mod solving;

//! Congruence closure: the congruence classes of terms, and the equations that joined them.
#![tactic(auto)]

pub mod branch_classes;
pub mod classes;
pub mod forest_paths;
pub mod proof_forest;

//! The typing rules, the pool of types, and the rules on locals along control paths, as definitions.
#![tactic(auto)]

pub mod constant;
pub mod control_paths;
pub mod sort;
pub mod type_pool;

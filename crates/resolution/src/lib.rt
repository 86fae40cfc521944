//! Resolution of whole programs: puts the resolved declarations and clauses together, or finds the first declaration
//! with a use that has no meaning.
#![tactic(auto)]

pub mod clauses;
pub mod declarations;
pub mod declared;
pub mod fault;
mod first;
mod functions;
pub mod known;
pub mod law;
mod members;
mod modules;
pub mod owners;
mod parts;
pub mod resolve;
pub mod tables;

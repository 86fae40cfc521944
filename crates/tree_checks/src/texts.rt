//! Checks whether traces of a search justify its result: an open branch with its values, or a partial tableau. Such
//! traces do not contain the grounds of their applications; these are computed anew and then checked.

mod elimination;
mod grounds;
mod numbers;
pub mod open;
pub mod partial;
mod steps;

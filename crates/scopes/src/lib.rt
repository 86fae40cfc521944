//! The meaning of names in a module, the declarations and imports of a module, and the declarations that it may use.
#![tactic(auto)]

pub mod addresses;
pub mod builtin;
pub mod environment;
pub mod fault;
pub mod member;
pub mod module_uses;
pub mod modules;
pub mod scope;
pub mod types;
pub mod visibility;
pub mod visible;

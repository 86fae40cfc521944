//! The front end: from the bytes of files to a typed program, or to the first rule or limit that they break.
#![tactic(auto)]

pub mod bounds;
pub mod fault;
pub mod files;
pub mod front;
pub mod locals;
pub mod modules;
pub mod names;
pub mod sources;
pub mod texts;
pub mod twice;
pub mod types;

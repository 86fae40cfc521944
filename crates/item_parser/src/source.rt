//! Readers of sources: files, with the tree of each spec block in them.

pub mod denoted;
pub mod ending;
pub mod fault;
pub mod functions;
pub mod module;
pub mod slots;

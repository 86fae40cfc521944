//! Rule applications that are due on a branch.

pub mod extensions;
pub mod late;
pub mod laws;
pub mod near;
pub mod plain;
pub mod promising;

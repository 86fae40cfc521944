//! The names in a module: declared by its members or imported by its `use`s, and which of them are declared twice.

pub mod brings;
pub mod declares;
pub mod sources;
pub mod twice;

//! The parts that all parsers share: readers of single tokens, of the leaves of trees (paths, types, patterns,
//! operators), and of the parts of declarations.
#![tactic(auto)]

pub mod abilities;
pub mod balanced;
pub mod explain;
pub mod fault;
pub mod kept;
pub mod leaf;
pub mod lists;
pub mod marker;
pub mod operator;
pub mod parameters;
pub mod parentheses;
pub mod path;
pub mod pattern;
pub mod signs;
pub mod typed_names;
pub mod types;

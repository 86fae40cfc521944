//! Parsers of declarations, of spec blocks, and of whole files with both.
#![tactic(auto)]

pub mod attributes;
pub mod constant;
pub mod denoted;
pub mod function;
pub mod header;
pub mod imports;
pub mod member;
pub mod module;
pub mod source;
pub mod spec;
pub mod structs;

//! Readers of spec expressions.

mod build;
pub mod expression;
mod leaf;
mod operator;

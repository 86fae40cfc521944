//! Source trees of Move modules and of their specs, and the token lists that they spell.
#![tactic(auto)]

pub mod clause;
pub mod expression;
pub mod lexeme;
pub mod literal;
pub mod member;
pub mod operator;
pub mod path;
pub mod pattern;
pub mod slot;
pub mod source;
pub mod spec_expression;
pub mod spec_tokens;
pub mod types;

//! Writes source trees as the tokens that spell them.
#![tactic(auto)]

pub mod spell_clause;
pub mod spell_expression;
pub mod spell_literal;
pub mod spell_member;
pub mod spell_operator;
pub mod spell_path;
pub mod spell_pattern;
pub mod spell_spec_expression;
pub mod spell_spec_operator;
pub mod spell_tokens;
pub mod spell_type;

//! Readers of members of modules.

ghost use Rattle.parser_base.specs.ReadFault.{Reads};
ghost use Rattle.item_parser.specs.MemberReading.{form_at, member_at};

use crate::attributes::read_attributes;
use crate::constant::read_constant;
use crate::function::read_function;
use crate::imports::{read_friend, read_use};
use crate::structs::read_struct;
use parser_base::fault::ReadFault;
use parser_base::kept::read_member_spec;
use parser_base::signs::span_of_word;
use std::alloc::Global;
use syntax_tree::member::{Member, MemberForm};
use tokens::token::Token;

/// Reads the form of a member. Returns it and the remaining tokens.
#[tactic(auto, unfolding(crate::specs::MemberReading::form_at))]
fn read_form(
    alloc: Global,
    tokens: &[Token],
    budget: usize,
) -> Result<(MemberForm, &[Token]), ReadFault>
    ensures { Reads result (λ read. (read.0, read.1.now)) (form_at budget tokens.now) }
{
    if let Some((span, rest)) = span_of_word(tokens, b"use") {
        let (member, rest) = read_use(alloc, span, rest)?;
        return Ok((MemberForm::Use(member), rest));
    }
    if let Some((span, rest)) = span_of_word(tokens, b"friend") {
        let (member, rest) = read_friend(alloc, span, rest)?;
        return Ok((MemberForm::Friend(member), rest));
    }
    if let Some((span, rest)) = span_of_word(tokens, b"struct") {
        let (member, rest) = read_struct(alloc, span, rest, budget)?;
        return Ok((MemberForm::Struct(member), rest));
    }
    if let Some((span, rest)) = span_of_word(tokens, b"const") {
        let (member, rest) = read_constant(alloc, span, rest, budget)?;
        return Ok((MemberForm::Constant(member), rest));
    }
    if span_of_word(tokens, b"spec").is_some() {
        let (member, rest) = read_member_spec(alloc, tokens)?;
        return Ok((MemberForm::Spec(member), rest));
    }
    let (member, rest) = read_function(alloc, tokens, budget)?;
    Ok((MemberForm::Function(member), rest))
}

/// Reads a member of a module with its attributes. Returns it and the remaining tokens.
#[tactic(auto, unfolding(crate::specs::MemberReading::member_at))]
pub fn read_member(
    alloc: Global,
    tokens: &[Token],
    budget: usize,
) -> Result<(Member, &[Token]), ReadFault>
    ensures { Reads result (λ read. (read.0, read.1.now)) (member_at budget tokens.now) }
{
    let (attributes, rest) = read_attributes(alloc, tokens)?;
    let (form, rest) = read_form(alloc, rest, budget)?;
    Ok((Member { attributes, form }, rest))
}

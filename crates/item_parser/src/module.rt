//! Readers of modules and files.

ghost use Rattle.std.specs.Prelude.{◌≡◌, None, Some, MatchResult};
ghost use Rattle.parser_base.specs.ReadFault.{IfNoTree, Reads};
ghost use Rattle.item_parser.specs.FileReading.{file_at, members_at, module_behind};

use crate::attributes::read_attributes;
use crate::member::read_member;
use parser_base::fault::ReadFault;
use parser_base::path::read_module_name;
use parser_base::signs::{begins_with, expect_sign, span_of_word};
use std::alloc::Global;
use syntax_tree::member::{File, Member, Module};
use tokens::token::{Punctuation, Token};

/// Reads the members of a module up to its brace. Returns them and the tokens from the brace on.
fn read_members(
    alloc: Global,
    tokens: &[Token],
    budget: usize,
) -> Result<(Vec<Member>, &[Token]), ReadFault>
    ensures { Reads result (λ read. (read.0.items, read.1.now)) (members_at budget tokens.now) }
{
    let mut members = Vec::new(alloc);
    let mut rest = tokens;
    for _ in 0..tokens.len() {
        if begins_with(rest, Punctuation::RightBrace) {
            return Ok((members, rest));
        }
        let (member, behind) = read_member(alloc, rest, budget)?;
        members.push(member)?;
        rest = behind;
    }
    Ok((members, rest))
}

/// Reads a module with its attributes. Returns it and the remaining tokens.
#[tactic(auto, unfolding(crate::specs::FileReading::module_behind))]
fn read_module(
    alloc: Global,
    tokens: &[Token],
    budget: usize,
) -> Result<(Module, &[Token]), ReadFault>
    ensures { Reads result (λ read. (read.0, read.1.now)) (module_behind budget tokens.now) }
{
    let (attributes, rest) = read_attributes(alloc, tokens)?;
    let Some((span, rest)) = span_of_word(rest, b"module") else {
        return Err(ReadFault::NoTree { left: rest.len() });
    };
    let (name, rest) = read_module_name(alloc, rest)?;
    let rest = expect_sign(rest, Punctuation::LeftBrace)?;
    let (members, rest) = read_members(alloc, rest, budget)?;
    let rest = expect_sign(rest, Punctuation::RightBrace)?;
    let module = Module {
        attributes,
        span,
        name,
        members,
    };
    Ok((module, rest))
}

/// Reads the modules of a file, which take all its tokens.
pub fn read_file(alloc: Global, tokens: &[Token], budget: usize) -> Result<File, ReadFault>
    ensures { MatchResult result (λ file. file_at budget tokens.now ≡ Some file) (λ fault. IfNoTree fault (file_at budget tokens.now ≡ None)) }
{
    let mut modules = Vec::new(alloc);
    let mut rest = tokens;
    for _ in 0..tokens.len() {
        if rest.is_empty() {
            return Ok(File { modules });
        }
        let (module, behind) = read_module(alloc, rest, budget)?;
        modules.push(module)?;
        rest = behind;
    }
    if rest.is_empty() {
        Ok(File { modules })
    } else {
        Err(ReadFault::NoTree { left: rest.len() })
    }
}

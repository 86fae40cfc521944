//! Readers of spec blocks that are kept as tokens.

ghost use Rattle.std.specs.Prelude.{◌≡◌, [], None, Some, reverse, MatchResult};
ghost use Rattle.parser_base.specs.ReadFault.{IfNoTree, Reads};
ghost use Rattle.parser_base.specs.KeptReading.{front, head_end, is_none_open, loop_spec_at, member_spec_at};

use crate::balanced::{copy_tokens, follow, skip_balanced};
use crate::fault::ReadFault;
use crate::signs::{expect_sign, expect_word, is_sign};
use std::alloc::Global;
use syntax_tree::spec_tokens::KeptSpec;
use tokens::token::{Punctuation, Token};

/// Decides whether no bracket is open.
#[tactic(auto, using(crate::proofs::KeptLemmas::none_open_by_length))]
fn is_none_open(wanted: &[Punctuation]) -> bool
    ensures { result ≡ is_none_open (reverse wanted.now) }
{
    wanted.is_empty()
}

/// Skips the tokens up to and including the first brace. The brackets before it are balanced.
fn skip_head(alloc: Global, tokens: &[Token]) -> Result<&[Token], ReadFault>
    ensures { MatchResult result (λ rest. head_end [] tokens.now ≡ Some rest.now) (λ fault. IfNoTree fault (head_end [] tokens.now ≡ None)) }
{
    let mut wanted = Vec::new(alloc);
    let mut rest = tokens;
    while let Some((token, behind)) = rest.split_first() {
        if is_sign(&token.kind, Punctuation::LeftBrace) {
            if is_none_open(wanted.as_slice()) {
                return Ok(behind);
            }
            return Err(ReadFault::NoTree { left: rest.len() });
        }
        if !follow(&mut wanted, &token.kind)? {
            return Err(ReadFault::NoTree { left: rest.len() });
        }
        rest = behind;
    }
    Err(ReadFault::NoTree { left: 0 })
}

/// Reads the spec block of a member, from its keyword on. Returns it and the remaining tokens.
#[tactic(auto, unfolding(crate::specs::KeptReading::member_spec_at, crate::specs::KeptReading::spec_end), using(crate::proofs::KeptLemmas::member_spec_shorter))]
pub fn read_member_spec(alloc: Global, tokens: &[Token]) -> Result<(KeptSpec, &[Token]), ReadFault>
    ensures { Reads result (λ read. (read.0, read.1.now)) (member_spec_at tokens.now) }
{
    let head = expect_word(tokens, b"spec")?;
    let body = skip_head(alloc, head)?;
    let rest = skip_balanced(alloc, Punctuation::RightBrace, body)?;
    let tokens = copy_tokens(alloc, &tokens[..tokens.len() - rest.len()])?;
    Ok((KeptSpec { tokens }, rest))
}

/// Reads the spec block of a loop, from its keyword on. Returns it and the remaining tokens.
#[tactic(auto, unfolding(crate::specs::KeptReading::loop_spec_at, crate::specs::KeptReading::spec_end), using(crate::proofs::KeptLemmas::loop_spec_shorter))]
pub fn read_loop_spec(alloc: Global, tokens: &[Token]) -> Result<(KeptSpec, &[Token]), ReadFault>
    ensures { Reads result (λ read. (read.0, read.1.now)) (loop_spec_at tokens.now) }
{
    let head = expect_word(tokens, b"spec")?;
    let body = expect_sign(head, Punctuation::LeftBrace)?;
    let rest = skip_balanced(alloc, Punctuation::RightBrace, body)?;
    let tokens = copy_tokens(alloc, &tokens[..tokens.len() - rest.len()])?;
    Ok((KeptSpec { tokens }, rest))
}

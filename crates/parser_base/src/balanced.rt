//! Readers of tokens with balanced brackets.

ghost use Rattle.std.specs.Prelude.{◌≡◌, [], None, Some, reverse, IfOk, MatchResult};
ghost use Rattle.syntax_tree.specs.Balance.{expected_after};
ghost use Rattle.parser_base.specs.ReadFault.{IfNoTree, Reads};
ghost use Rattle.parser_base.specs.BalanceReading.{balanced_at, balanced_end, ends_here, Follows};

use crate::fault::ReadFault;
use crate::signs::is_sign;
use base::memory::NoMemory;
use std::alloc::Global;
use syntax_tree::spec_tokens::copy_kind;
use tokens::token::{Punctuation, Token, TokenKind, Tokens};

/// Copies a token.
fn copy_token(alloc: Global, token: &Token) -> Result<Token, NoMemory>
    ensures { IfOk result (λ copy. copy ≡ token.now) }
{
    Ok(Token {
        kind: copy_kind(alloc, &token.kind)?,
        span: token.span,
        glued: token.glued,
    })
}

/// Copies tokens.
pub fn copy_tokens(alloc: Global, tokens: &[Token]) -> Result<Tokens, NoMemory>
    ensures { IfOk result (λ copies. copies ≡ tokens.now) }
{
    let mut copies = Tokens::new(alloc);
    for token in tokens {
        copies.push(copy_token(alloc, token)?)?;
    }
    Ok(copies)
}

/// Decides whether a token closes the whole, where `wanted` holds the expected closing brackets, the next one last.
#[tactic(auto, using(crate::proofs::BalanceLemmas::end_by_length))]
fn is_end(close: Punctuation, wanted: &[Punctuation], kind: &TokenKind) -> bool
    ensures { result ≡ ends_here close (reverse wanted.now) kind.now }
{
    wanted.is_empty() && is_sign(kind, close)
}

/// Updates the expected brackets after one more token. `wanted` holds the closing brackets still expected, the next one
/// last. Returns false if the token closes another bracket than the expected one.
pub fn follow(wanted: &mut Vec<Punctuation>, kind: &TokenKind) -> Result<bool, NoMemory>
    ensures { IfOk result (λ fits. Follows fits (expected_after (Some (reverse wanted.old.items)) kind.now) (reverse wanted.new.items)) }
{
    let TokenKind::Punctuation(sign) = kind else {
        return Ok(true);
    };
    match sign {
        Punctuation::LeftParenthesis => wanted.push(Punctuation::RightParenthesis)?,
        Punctuation::LeftBrace => wanted.push(Punctuation::RightBrace)?,
        Punctuation::LeftBracket => wanted.push(Punctuation::RightBracket)?,
        Punctuation::RightParenthesis | Punctuation::RightBrace | Punctuation::RightBracket => {
            return Ok(wanted.pop() == Some(*sign));
        }
        _ => {}
    }
    Ok(true)
}

/// Skips tokens with balanced brackets and the sign that closes them.
pub fn skip_balanced(
    alloc: Global,
    close: Punctuation,
    tokens: &[Token],
) -> Result<&[Token], ReadFault>
    ensures { MatchResult result (λ rest. balanced_end close [] tokens.now ≡ Some rest.now) (λ fault. IfNoTree fault (balanced_end close [] tokens.now ≡ None)) }
{
    let mut wanted = Vec::new(alloc);
    let mut rest = tokens;
    while let Some((token, behind)) = rest.split_first() {
        if is_end(close, wanted.as_slice(), &token.kind) {
            return Ok(behind);
        }
        if !follow(&mut wanted, &token.kind)? {
            return Err(ReadFault::NoTree { left: rest.len() });
        }
        rest = behind;
    }
    Err(ReadFault::NoTree { left: 0 })
}

/// Reads tokens with balanced brackets up to the sign that closes them. Returns them and the tokens after the sign.
#[tactic(auto, unfolding(crate::specs::BalanceReading::balanced_at), using(crate::proofs::BalanceLemmas::end_inside))]
pub fn read_balanced(
    alloc: Global,
    close: Punctuation,
    tokens: &[Token],
) -> Result<(Tokens, &[Token]), ReadFault>
    ensures { Reads result (λ read. (read.0, read.1.now)) (balanced_at close tokens.now) }
{
    let rest = skip_balanced(alloc, close, tokens)?;
    let inside = &tokens[..tokens.len() - rest.len() - 1];
    Ok((copy_tokens(alloc, inside)?, rest))
}

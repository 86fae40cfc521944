//! Spec blocks in a file tree, as tokens.

ghost use Rattle.std.specs.Prelude.{◌≡◌, IfOk};

use base::memory::NoMemory;
use std::alloc::Global;
use tokens::token::{NumberLiteral, TokenKind, Tokens};

/// A spec block of a file tree: its tokens, from the word `spec` to its closing brace.
#[derive(Drop)]
pub struct KeptSpec {
    pub tokens: Tokens,
}

/// Returns a copy of the kind of a token.
pub fn copy_kind(alloc: Global, kind: &TokenKind) -> Result<TokenKind, NoMemory>
    ensures { IfOk result (λ copy. copy ≡ kind.now) }
{
    match kind {
        TokenKind::Word(text) => Ok(TokenKind::Word(text.try_clone(alloc)?)),
        TokenKind::Number(literal) => Ok(TokenKind::Number(NumberLiteral {
            text: literal.text.try_clone(alloc)?,
            value: literal.value,
            suffix: literal.suffix,
        })),
        TokenKind::ByteString(text) => Ok(TokenKind::ByteString(text.try_clone(alloc)?)),
        TokenKind::Punctuation(sign) => Ok(TokenKind::Punctuation(*sign)),
    }
}

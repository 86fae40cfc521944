//! Writers of the tokens that trees keep.

ghost use Rattle.std.specs.Prelude.{◌≡◌, [], ◌∷◌, ◌++◌, Some, OnOk, map};
ghost use Rattle.syntax_tree.specs.SpecTokenSpelling.{kept, kept_spelling};

use base::memory::NoMemory;
use std::alloc::Global;
use syntax_tree::lexeme::{Lexeme, Lexemes};
use syntax_tree::spec_tokens::{KeptSpec, copy_kind};
use tokens::token::Token;

fn spell_kept(alloc: Global, token: &Token, into: &mut Lexemes) -> Result<(), NoMemory>
    ensures { OnOk result (into.new ≡ into.old ++ kept token.now ∷ []) }
{
    let kind = copy_kind(alloc, &token.kind)?;
    into.push(Lexeme {
        kind,
        span: Some(token.span),
        glued: Some(token.glued),
    })
}

/// Appends tokens that a tree keeps, unchanged.
pub fn spell_tokens(alloc: Global, tokens: &[Token], into: &mut Lexemes) -> Result<(), NoMemory>
    ensures { OnOk result (into.new ≡ into.old ++ map kept tokens.now) }
{
    for token in tokens {
        spell_kept(alloc, token, into)?;
    }
    Ok(())
}

/// Appends the tokens of a spec block that a tree keeps.
pub fn spell_kept_spec(alloc: Global, spec: &KeptSpec, into: &mut Lexemes) -> Result<(), NoMemory>
    ensures { OnOk result (into.new ≡ into.old ++ kept_spelling spec.now) }
{
    spell_tokens(alloc, spec.tokens.as_slice(), into)
}

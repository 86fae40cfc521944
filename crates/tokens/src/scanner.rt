//! The tokens of a file.

ghost use Rattle.std.specs.Prelude.{◌≡◌, ◌⊎◌, ◌<◌, ◌≤◌, ◌^◌, ℕ, List, length, IfOk};
ghost use Rattle.tokens.specs.declared.token.Token.{Token};
ghost use Rattle.tokens.specs.Spelling.{Spells, IsBadAt, IsUnspelled, Gives, GivesBadToken};
ghost use Rattle.tokens.specs.Reading.{kind_of};

use crate::piece::{Class, TokenClass, found_at};
use crate::token::{NumberLiteral, Token, TokenFault, TokenKind, Tokens};
use base::memory::NoMemory;
use base::name::Name;
use base::span::Span;
use std::alloc::Global;

/// The greatest number of tokens in a file.
pub const TOKEN_LIMIT: u32 = 200_000;

impl From<NoMemory> for TokenFault {
    ghost use Rattle.std.specs.Prelude.{◌≡◌};
    ghost use Rattle.tokens.specs.declared.token.TokenFault.TheVariants.{NoMemory};

    ghost from_gives = { λ _ e. e ≡ NoMemory };

    fn from(_error: NoMemory) -> TokenFault {
        TokenFault::NoMemory
    }
}

/// Returns the token of this class with this text.
fn token_kind(alloc: Global, class: TokenClass, text: &[u8]) -> Result<TokenKind, NoMemory>
    ensures { IfOk result (λ kind. kind ≡ kind_of class text.now) }
{
    match class {
        TokenClass::Word => Ok(TokenKind::Word(Name::from_slice(alloc, text)?)),
        TokenClass::Number(value, suffix) => Ok(TokenKind::Number(NumberLiteral {
            text: Name::from_slice(alloc, text)?,
            value,
            suffix,
        })),
        TokenClass::ByteString => Ok(TokenKind::ByteString(Name::from_slice(alloc, text)?)),
        TokenClass::Sign(sign) => Ok(TokenKind::Punctuation(sign)),
    }
}

/// Returns the tokens that spell the bytes of the file with this number.
///
/// The tokens are those of The Move Book, with the signs `==>`, `<==>` and `..` of specs. The longest token is taken at
/// each position, except that `>>` is two, and that letters, digits and `_` after a digit belong to its number. Blanks
/// and comments separate tokens, and block comments nest.
///
/// # Errors
///
/// - `BadToken` where no token list spells the bytes, with the byte at which the first impossible token or the first
///   unclosed block comment begins.
/// - `TooMany` where the bytes have more than `TOKEN_LIMIT` tokens, with their count.
/// - `NoMemory` where there is not enough memory.
pub fn tokens(alloc: Global, file: u32, bytes: &[u8]) -> Result<Tokens, TokenFault>
    requires { length bytes.now < 2 ^ 32 }

    // What each answer means.
    ensures ok { IfOk result (λ found. Spells file found bytes.now × (length found ≤ TOKEN_LIMIT)) }
    ensures bad_token { (offset : ℕ) → result ≡ Err (TokenFault.BadToken offset)
        → IsBadAt offset bytes.now × IsUnspelled file bytes.now }
    ensures too_many { (count : ℕ) → result ≡ Err (TokenFault.TooMany count)
        → (found : List Token) × Spells file found bytes.now × (length found ≡ count) × (TOKEN_LIMIT < count) }

    // Which answer is returned, unless there is not enough memory.
    ensures spelled { (found : List Token) → Spells file found bytes.now → length found ≤ TOKEN_LIMIT
        → Gives result (Ok found) }
    ensures spelled_long { (found : List Token) → Spells file found bytes.now → TOKEN_LIMIT < length found
        → Gives result (Err (TokenFault.TooMany (length found))) }
    ensures bad_offset { (offset : ℕ) → IsBadAt offset bytes.now
        → Gives result (Err (TokenFault.BadToken offset)) }
    ensures unspelled { IsUnspelled file bytes.now → GivesBadToken result }
{
    let mut found = Tokens::new(alloc);
    let mut count: u32 = 0;
    let mut at: usize = 0;
    let mut touching = false;
    while at < bytes.len() {
        let rest = &bytes[at..];
        let Some(piece) = found_at(rest) else {
            return Err(TokenFault::BadToken(at as u32));
        };
        let end = at + piece.length;
        match piece.class {
            Class::Space => touching = false,
            Class::Token(class) => {
                if count < TOKEN_LIMIT {
                    found.push(Token {
                        kind: token_kind(alloc, class, &rest[..piece.length])?,
                        span: Span {
                            file,
                            start: at as u32,
                            end: end as u32,
                        },
                        glued: touching,
                    })?;
                }
                count += 1;
                touching = true;
            }
        }
        at = end;
    }
    if count > TOKEN_LIMIT {
        return Err(TokenFault::TooMany(count));
    }
    Ok(found)
}

/// A law: two token lists that spell the same bytes of a file are equal.
pub fn one_spelling()
    ensures { (file : ℕ) (bytes : List ℕ) (one other : List Token)
        → Spells file one bytes → Spells file other bytes → one ≡ other }
{}

/// A law: either tokens spell the bytes or the bytes contain a bad token, and never both.
pub fn spelled_or_bad()
    ensures either { (file : ℕ) (bytes : List ℕ)
        → ((tokens : List Token) × Spells file tokens bytes) ⊎ ((offset : ℕ) × IsBadAt offset bytes) }
    ensures apart { (file offset : ℕ) (bytes : List ℕ) → IsBadAt offset bytes → IsUnspelled file bytes }
    ensures one_offset { (one other : ℕ) (bytes : List ℕ)
        → IsBadAt one bytes → IsBadAt other bytes → one ≡ other }
{}

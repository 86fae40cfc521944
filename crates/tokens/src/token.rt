//! Tokens: the words, numbers, byte strings and signs of a source file.

ghost use Rattle.std.specs.Prelude.{◌≡◌, [], ◌∷◌, ◌++◌, ◌==◌, length, OnOk, OnErr};

use base::memory::NoMemory;
use base::name::Name;
use base::span::Span;
use std::alloc::Global;
use std::error::Error;
use std::fmt;
use std::marker::Model;

/// The type suffix of a number, as in `7u8`.
#[derive(Clone, Copy, Debug, PartialEq, Eq)]
pub enum NumberSuffix {
    /// The number has no suffix.
    Absent,
    U8,
    U16,
    U32,
    U64,
    U128,
    U256,
}

/// A number in source text.
#[derive(Drop)]
pub struct NumberLiteral {
    /// The bytes that spell it, including its prefix, its underscores and its suffix.
    pub text: Name,
    /// The value. It may be too large for the type that the suffix names.
    pub value: u128,
    pub suffix: NumberSuffix,
}

/// The signs of the language, each with the name that Move's compiler gives it.
#[derive(Clone, Copy, Debug, PartialEq, Eq)]
pub enum Punctuation {
    LeftParenthesis,
    RightParenthesis,
    LeftBrace,
    RightBrace,
    LeftBracket,
    RightBracket,
    Comma,
    Semicolon,
    Colon,
    ColonColon,
    Period,
    PeriodPeriod,
    Equal,
    EqualEqual,
    EqualEqualGreater,
    ExclaimEqual,
    Exclaim,
    Less,
    LessEqual,
    LessEqualEqualGreater,
    LessLess,
    Greater,
    GreaterEqual,
    Plus,
    Minus,
    Star,
    Slash,
    Percent,
    Ampersand,
    AmpersandAmpersand,
    Pipe,
    PipePipe,
    Caret,
    AtSign,
    NumberSign,
}

/// The kind of a token, with the bytes that spell it.
#[derive(Drop)]
pub enum TokenKind {
    /// A name or a keyword.
    Word(Name),
    Number(NumberLiteral),
    /// A byte string, such as `b"hi"` or `x"00ff"`, with its letter, its quotes and its escapes.
    ByteString(Name),
    Punctuation(Punctuation),
}

/// A token with its span.
#[derive(Drop)]
pub struct Token {
    pub kind: TokenKind,
    pub span: Span,
    /// Whether its first byte directly follows the last byte of the token before it.
    pub glued: bool,
}

/// The tokens of one file, in the order of the text.
#[derive(Drop)]
pub struct Tokens {
    items: Vec<Token>,
}

impl Model for Tokens {
    ghost use Rattle.std.specs.Prelude.{List};
    ghost use Rattle.tokens.specs.declared.token.Token.{Token};

    ghost Value = { List Token };

    ghost view = { λ t. t.items.items };
}

impl Tokens {
    /// Returns the empty list of tokens.
    pub fn new(alloc: Global) -> Tokens
        ensures { result ≡ [] }
    {
        Tokens {
            items: Vec::new(alloc),
        }
    }

    /// Adds a token at the end. After `NoMemory` the tokens are unchanged.
    pub fn push(&mut self, token: Token) -> Result<(), NoMemory>
        ensures ok { OnOk result (self.new ≡ self.old ++ token ∷ []) }
        ensures err { OnErr result (self.new ≡ self.old) }
    {
        self.items.push(token)?;
        Ok(())
    }

    /// The number of tokens.
    pub fn len(&self) -> usize
        ensures { result ≡ length self.now }
    {
        self.items.len()
    }

    /// Decides whether there are no tokens.
    pub fn is_empty(&self) -> bool
        ensures { result ≡ (length self.now == 0) }
    {
        self.items.is_empty()
    }

    /// Returns the tokens.
    pub fn as_slice(&self) -> &[Token]
        ensures { result.now ≡ self.now }
    {
        self.items.as_slice()
    }
}

/// Why a text has no tokens.
#[derive(Clone, Copy, Debug, PartialEq, Eq)]
pub enum TokenFault {
    /// No token list spells the text. The number is the byte, counted from 0, at which the first
    /// impossible token or the first unclosed block comment begins.
    BadToken(u32),
    /// A token list spells the text, and has more than 200,000 tokens. The number is their count.
    TooMany(u32),
    /// There is not enough memory.
    NoMemory,
}

impl fmt::Display for TokenFault {
    fn fmt<W: fmt::Write>(&self, f: &mut fmt::Formatter<W>) -> fmt::Result {
        match self {
            TokenFault::BadToken(offset) => write!(f, "bad token at byte {offset}"),
            TokenFault::TooMany(count) => write!(f, "{count} tokens are too many"),
            TokenFault::NoMemory => write!(f, "no memory"),
        }
    }
}

impl Error for TokenFault {}

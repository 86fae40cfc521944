//! What a tree determines of each token that spells it.

ghost use Rattle.std.specs.Prelude.{◌≡◌, [], ◌∷◌, ◌++◌, None, OnOk, IfOk};
ghost use Rattle.syntax_tree.specs.Lexemes.{lexeme, word, sign, sign_at, last_comma};

use base::memory::NoMemory;
use base::name::Name;
use base::span::Span;
use std::alloc::Global;
use std::marker::Model;
use tokens::token::{NumberLiteral, Punctuation, Token, TokenKind};

/// What a tree determines of one token.
#[derive(Drop)]
pub struct Lexeme {
    pub kind: TokenKind,
    /// Its span, if the tree keeps it.
    pub span: Option<Span>,
    /// Whether it is glued to the token before it, if that affects parsing.
    pub glued: Option<bool>,
}

/// A name in a source, with its span.
#[derive(Drop)]
pub struct Identifier {
    pub text: Name,
    pub span: Span,
}

/// A number in a source, with its span.
#[derive(Drop)]
pub struct Numeral {
    pub literal: NumberLiteral,
    pub span: Span,
}

/// The lexemes of a tree, in order.
#[derive(Drop)]
pub struct Lexemes {
    items: Vec<Lexeme>,
}

impl Model for Lexemes {
    ghost use Rattle.std.specs.Prelude.{List};
    ghost use Rattle.syntax_tree.specs.declared.lexeme.Lexeme.{Lexeme};

    ghost Value = { List Lexeme };

    ghost view = { λ l. l.items.items };
}

impl Lexemes {
    /// Returns the empty list.
    pub fn new(alloc: Global) -> Lexemes
        ensures { result ≡ [] }
    {
        Lexemes {
            items: Vec::new(alloc),
        }
    }

    /// Returns the lexemes, in order.
    pub fn as_slice(&self) -> &[Lexeme]
        ensures { result.now ≡ self.now }
    {
        self.items.as_slice()
    }

    /// Adds a lexeme at the end.
    pub fn push(&mut self, lexeme: Lexeme) -> Result<(), NoMemory>
        ensures { OnOk result (self.new ≡ self.old ++ lexeme ∷ []) }
    {
        self.items.push(lexeme)?;
        Ok(())
    }

    /// Adds a sign at the end.
    pub fn push_sign(&mut self, punctuation: Punctuation) -> Result<(), NoMemory>
        ensures { OnOk result (self.new ≡ self.old ++ sign punctuation ∷ []) }
    {
        self.push(Lexeme {
            kind: TokenKind::Punctuation(punctuation),
            span: None,
            glued: None,
        })
    }

    /// Adds a sign whose span the tree keeps.
    pub fn push_sign_at(&mut self, span: Span, punctuation: Punctuation) -> Result<(), NoMemory>
        ensures { OnOk result (self.new ≡ self.old ++ sign_at span punctuation ∷ []) }
    {
        self.push(Lexeme {
            kind: TokenKind::Punctuation(punctuation),
            span: Some(span),
            glued: None,
        })
    }

    /// Adds a sign that is glued or not, as the grammar requires.
    pub fn push_sign_glued(
        &mut self,
        glued: Option<bool>,
        punctuation: Punctuation,
    ) -> Result<(), NoMemory>
        ensures { OnOk result (self.new ≡ self.old ++ lexeme (TokenKind.Punctuation punctuation) None glued ∷ []) }
    {
        self.push(Lexeme {
            kind: TokenKind::Punctuation(punctuation),
            span: None,
            glued,
        })
    }

    /// Adds a word that the tree does not keep: a keyword.
    pub fn push_word(
        &mut self,
        alloc: Global,
        text: &[u8],
        span: Option<Span>,
    ) -> Result<(), NoMemory>
        ensures { OnOk result (self.new ≡ self.old ++ word text.now span ∷ []) }
    {
        self.push(Lexeme {
            kind: TokenKind::Word(Name::from_slice(alloc, text)?),
            span,
            glued: None,
        })
    }

    /// Adds the comma after the last item of a list, if there is one.
    pub fn push_last_comma(&mut self, has_comma: bool) -> Result<(), NoMemory>
        ensures { OnOk result (self.new ≡ self.old ++ last_comma has_comma) }
    {
        if has_comma {
            self.push_sign(Punctuation::Comma)?;
        }
        Ok(())
    }
}

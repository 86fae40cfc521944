//! Writers of literals.

ghost use Rattle.std.specs.Prelude.{◌≡◌, ◌++◌, OnOk};
ghost use Rattle.syntax_tree.specs.LiteralSpelling.{literal_spelling};

use crate::spell_path::{spell_address, spell_numeral};
use base::memory::NoMemory;
use std::alloc::Global;
use syntax_tree::lexeme::Lexemes;
use syntax_tree::literal::Literal;
use tokens::token::Punctuation;

/// Appends the tokens of a literal.
pub fn spell_literal(alloc: Global, literal: &Literal, into: &mut Lexemes) -> Result<(), NoMemory>
    ensures { OnOk result (into.new ≡ into.old ++ literal_spelling literal.now) }
{
    match literal {
        Literal::Number(number) => spell_numeral(alloc, number, into),
        Literal::Truth { span, value } => {
            if *value {
                into.push_word(alloc, b"true", Some(*span))
            } else {
                into.push_word(alloc, b"false", Some(*span))
            }
        }
        Literal::Address { span, address } => {
            into.push_sign_at(*span, Punctuation::AtSign)?;
            spell_address(alloc, address, into)
        }
    }
}

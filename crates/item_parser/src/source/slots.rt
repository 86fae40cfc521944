//! The slots of the spec blocks of a module.

ghost use Rattle.std.specs.Prelude.{◌≡◌};
ghost use Rattle.std.specs.Option.{option_map};
ghost use Rattle.base.specs.Names.{has};
ghost use Rattle.item_parser.specs.SlotReading.{first_word, is_schema, names_struct, slot_at};

use crate::source::functions::FunctionNames;
use base::name::Name;
use parser_base::signs::{begins_capital, skip_word};
use syntax_tree::slot::Slot;
use tokens::token::{Token, TokenKind};

/// Returns the first token, if it is a word.
fn first_word(tokens: &[Token]) -> Option<&Name>
    ensures { option_map (λ name. name.now) result ≡ first_word tokens.now }
{
    match tokens.first() {
        Some(token) => match &token.kind {
            TokenKind::Word(name) => Some(name),
            _ => None,
        },
        None => None,
    }
}

/// Decides whether the tokens begin with `schema` and a name.
fn is_schema(tokens: &[Token]) -> bool
    ensures { result ≡ is_schema tokens.now }
{
    match skip_word(tokens, b"schema") {
        Some(rest) => first_word(rest).is_some(),
        None => false,
    }
}

/// Decides whether the first token is a name that begins with A to Z and no function has.
fn names_struct(functions: &FunctionNames, tokens: &[Token]) -> bool
    ensures { result ≡ names_struct (has functions.now) tokens.now }
{
    match first_word(tokens) {
        Some(name) => begins_capital(name.as_slice()) && !functions.contains(name),
        None => false,
    }
}

/// Returns the slot of a spec block, by the tokens after its word.
#[tactic(auto, unfolding(crate::specs::SlotReading::slot_at))]
pub fn slot_of(functions: &FunctionNames, tokens: &[Token]) -> Slot
    ensures { result ≡ slot_at (has functions.now) tokens.now }
{
    if skip_word(tokens, b"module").is_some() {
        Slot::Module
    } else if skip_word(tokens, b"fun").is_some() {
        Slot::SpecFunction
    } else if is_schema(tokens) {
        Slot::Schema
    } else if names_struct(functions, tokens) {
        Slot::Struct
    } else {
        Slot::Function
    }
}

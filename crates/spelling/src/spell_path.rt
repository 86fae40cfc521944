//! Writers of addresses, module names and paths.

ghost use Rattle.std.specs.Prelude.{◌≡◌, [], ◌∷◌, ◌++◌, None, Some, OnOk};
ghost use Rattle.syntax_tree.specs.Lexemes.{identifier, numeral};
ghost use Rattle.syntax_tree.specs.PathSpelling.{address_spelling, module_spelling, path_spelling};

use base::memory::NoMemory;
use std::alloc::Global;
use syntax_tree::lexeme::{Identifier, Lexeme, Lexemes, Numeral};
use syntax_tree::path::{Address, ModuleName, Path};
use tokens::token::{NumberLiteral, Punctuation, TokenKind};

/// Appends the token of a name.
pub fn spell_identifier(
    alloc: Global,
    name: &Identifier,
    into: &mut Lexemes,
) -> Result<(), NoMemory>
    ensures { OnOk result (into.new ≡ into.old ++ identifier name.now ∷ []) }
{
    into.push_word(alloc, name.text.as_slice(), Some(name.span))
}

/// Appends the token of a number.
pub fn spell_numeral(alloc: Global, number: &Numeral, into: &mut Lexemes) -> Result<(), NoMemory>
    ensures { OnOk result (into.new ≡ into.old ++ numeral number.now ∷ []) }
{
    let literal = NumberLiteral {
        text: number.literal.text.try_clone(alloc)?,
        value: number.literal.value,
        suffix: number.literal.suffix,
    };
    into.push(Lexeme {
        kind: TokenKind::Number(literal),
        span: Some(number.span),
        glued: None,
    })
}

/// Appends the tokens of an address.
pub fn spell_address(alloc: Global, address: &Address, into: &mut Lexemes) -> Result<(), NoMemory>
    ensures { OnOk result (into.new ≡ into.old ++ address_spelling address.now) }
{
    match address {
        Address::Number(number) => spell_numeral(alloc, number, into),
        Address::Name(name) => spell_identifier(alloc, name, into),
    }
}

/// Appends the tokens of a module's full name.
pub fn spell_module_name(
    alloc: Global,
    owner: &ModuleName,
    into: &mut Lexemes,
) -> Result<(), NoMemory>
    ensures { OnOk result (into.new ≡ into.old ++ module_spelling owner.now) }
{
    spell_address(alloc, &owner.address, into)?;
    into.push_sign(Punctuation::ColonColon)?;
    spell_identifier(alloc, &owner.name, into)
}

/// Appends the tokens of a path.
pub fn spell_path(alloc: Global, path: &Path, into: &mut Lexemes) -> Result<(), NoMemory>
    ensures { OnOk result (into.new ≡ into.old ++ path_spelling path.now) }
{
    match path {
        Path::Name(name) => spell_identifier(alloc, name, into),
        Path::Member(owner, name) => {
            spell_identifier(alloc, owner, into)?;
            into.push_sign(Punctuation::ColonColon)?;
            spell_identifier(alloc, name, into)
        }
        Path::Full(owner, name) => {
            spell_module_name(alloc, owner, into)?;
            into.push_sign(Punctuation::ColonColon)?;
            spell_identifier(alloc, name, into)
        }
    }
}

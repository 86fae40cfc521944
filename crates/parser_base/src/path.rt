//! Readers of addresses, module names and paths.

ghost use Rattle.std.specs.Prelude.{◌≡◌, IfOk};
ghost use Rattle.std.specs.Option.{option_map};
ghost use Rattle.syntax_tree.specs.declared.path.Path.TheVariants.{Name as name_path};
ghost use Rattle.syntax_tree.specs.ProperTypes.{last_name};
ghost use Rattle.parser_base.specs.ReadFault.{Reads};
ghost use Rattle.parser_base.specs.PathReading.{address_at, address_number_at, address_number_of, is_single, member_at, module_name_at, path_at, path_behind_name, path_behind_names, path_behind_number};

use crate::fault::ReadFault;
use crate::signs::{expect_sign, read_identifier, skip_sign};
use base::memory::NoMemory;
use std::alloc::Global;
use syntax_tree::lexeme::{Identifier, Numeral};
use syntax_tree::path::{Address, ModuleName, Path};
use tokens::token::{NumberLiteral, NumberSuffix, Punctuation, Token, TokenKind};

/// Copies a number.
pub fn copy_number(alloc: Global, literal: &NumberLiteral) -> Result<NumberLiteral, NoMemory>
    ensures { IfOk result (λ copy. copy ≡ literal.now) }
{
    Ok(NumberLiteral {
        text: literal.text.try_clone(alloc)?,
        value: literal.value,
        suffix: literal.suffix,
    })
}

/// Returns the number of a token if it can be an address: it has no suffix.
fn address_number_of(kind: &TokenKind) -> Option<&NumberLiteral>
    ensures { option_map (λ literal. literal.now) result ≡ address_number_of kind.now }
{
    match kind {
        TokenKind::Number(literal) if literal.suffix == NumberSuffix::Absent => Some(literal),
        _ => None,
    }
}

/// Reads a number that can be an address, if one is here. Returns it and the remaining tokens.
#[tactic(auto, unfolding(crate::specs::PathReading::address_number_at))]
fn read_address_number(
    alloc: Global,
    tokens: &[Token],
) -> Result<Option<(Numeral, &[Token])>, NoMemory>
    ensures { IfOk result (λ read. option_map (λ r. (r.0, r.1.now)) read ≡ address_number_at tokens.now) }
{
    let Some((token, rest)) = tokens.split_first() else {
        return Ok(None);
    };
    match address_number_of(&token.kind) {
        Some(literal) => {
            let number = Numeral {
                literal: copy_number(alloc, literal)?,
                span: token.span,
            };
            Ok(Some((number, rest)))
        }
        None => Ok(None),
    }
}

/// Reads an address. Returns it and the remaining tokens.
#[tactic(auto, unfolding(crate::specs::PathReading::address_at))]
pub fn read_address(alloc: Global, tokens: &[Token]) -> Result<(Address, &[Token]), ReadFault>
    ensures { Reads result (λ read. (read.0, read.1.now)) (address_at tokens.now) }
{
    if let Some((number, rest)) = read_address_number(alloc, tokens)? {
        return Ok((Address::Number(number), rest));
    }
    let (name, rest) = read_identifier(alloc, tokens)?;
    Ok((Address::Name(name), rest))
}

/// Reads a module's address and name. Returns them and the remaining tokens.
#[tactic(auto, unfolding(crate::specs::PathReading::module_name_at))]
pub fn read_module_name(
    alloc: Global,
    tokens: &[Token],
) -> Result<(ModuleName, &[Token]), ReadFault>
    ensures { Reads result (λ read. (read.0, read.1.now)) (module_name_at tokens.now) }
{
    let (address, rest) = read_address(alloc, tokens)?;
    let rest = expect_sign(rest, Punctuation::ColonColon)?;
    let (name, rest) = read_identifier(alloc, rest)?;
    Ok((ModuleName { address, name }, rest))
}

/// Reads the last name of a path, after its module. Returns it and the remaining tokens.
#[tactic(auto, unfolding(crate::specs::PathReading::member_at))]
fn read_member(
    alloc: Global,
    owner: ModuleName,
    tokens: &[Token],
) -> Result<(Path, &[Token]), ReadFault>
    ensures { Reads result (λ read. (read.0, read.1.now)) (member_at owner tokens.now) }
{
    let (name, rest) = read_identifier(alloc, tokens)?;
    Ok((Path::Full(owner, name), rest))
}

/// Reads a path, after the number that is its address. Returns it and the remaining tokens.
#[tactic(auto, unfolding(crate::specs::PathReading::path_behind_number))]
fn read_path_behind_number(
    alloc: Global,
    number: Numeral,
    tokens: &[Token],
) -> Result<(Path, &[Token]), ReadFault>
    ensures { Reads result (λ read. (read.0, read.1.now)) (path_behind_number number tokens.now) }
{
    let rest = expect_sign(tokens, Punctuation::ColonColon)?;
    let (name, rest) = read_identifier(alloc, rest)?;
    let rest = expect_sign(rest, Punctuation::ColonColon)?;
    let owner = ModuleName {
        address: Address::Number(number),
        name,
    };
    read_member(alloc, owner, rest)
}

/// Reads a path, after its first two names. Returns it and the remaining tokens.
#[tactic(auto, unfolding(crate::specs::PathReading::path_behind_names))]
fn read_path_behind_names(
    alloc: Global,
    first: Identifier,
    second: Identifier,
    tokens: &[Token],
) -> Result<(Path, &[Token]), ReadFault>
    ensures { Reads result (λ read. (read.0, read.1.now)) (path_behind_names first second tokens.now) }
{
    let Some(rest) = skip_sign(tokens, Punctuation::ColonColon) else {
        return Ok((Path::Member(first, second), tokens));
    };
    let owner = ModuleName {
        address: Address::Name(first),
        name: second,
    };
    read_member(alloc, owner, rest)
}

/// Reads a path, after its first name. Returns it and the remaining tokens.
#[tactic(auto, unfolding(crate::specs::PathReading::path_behind_name))]
fn read_path_behind_name(
    alloc: Global,
    first: Identifier,
    tokens: &[Token],
) -> Result<(Path, &[Token]), ReadFault>
    ensures { Reads result (λ read. (read.0, read.1.now)) (path_behind_name first tokens.now) }
{
    let Some(rest) = skip_sign(tokens, Punctuation::ColonColon) else {
        return Ok((Path::Name(first), tokens));
    };
    let (second, rest) = read_identifier(alloc, rest)?;
    read_path_behind_names(alloc, first, second, rest)
}

/// Reads a path. Returns it and the remaining tokens.
#[tactic(auto, unfolding(crate::specs::PathReading::path_at))]
pub fn read_path(alloc: Global, tokens: &[Token]) -> Result<(Path, &[Token]), ReadFault>
    ensures { Reads result (λ read. (read.0, read.1.now)) (path_at tokens.now) }
{
    if let Some((number, rest)) = read_address_number(alloc, tokens)? {
        return read_path_behind_number(alloc, number, rest);
    }
    let (first, rest) = read_identifier(alloc, tokens)?;
    read_path_behind_name(alloc, first, rest)
}

/// Returns the number of remaining tokens after the failure to read a path. A number with a suffix is not an address,
/// but it can be a term; then the token after it is the impossible one.
fn left_behind_number(tokens: &[Token], left: usize) -> usize {
    match tokens.split_first() {
        Some((token, rest)) if left == tokens.len() => match &token.kind {
            TokenKind::Number(literal) if literal.suffix != NumberSuffix::U256 => rest.len(),
            _ => left,
        },
        _ => left,
    }
}

/// Reads a path where a number is possible too. Returns it and the remaining tokens.
pub fn read_path_of_term(alloc: Global, tokens: &[Token]) -> Result<(Path, &[Token]), ReadFault>
    ensures { Reads result (λ read. (read.0, read.1.now)) (path_at tokens.now) }
{
    match read_path(alloc, tokens) {
        Err(ReadFault::NoTree { left }) => {
            let left = left_behind_number(tokens, left);
            Err(ReadFault::NoTree { left })
        }
        read => read,
    }
}

/// Decides whether a path is this single word.
pub fn is_single(path: &Path, word: &[u8]) -> bool
    ensures { result ≡ is_single word.now path.now }
{
    match path {
        Path::Name(name) => name.text.as_slice() == word,
        _ => false,
    }
}

/// Returns the last name of a path.
pub fn last_name(path: &Path) -> &[u8]
    ensures { result.now ≡ last_name path.now }
{
    match path {
        Path::Name(name) | Path::Member(_, name) | Path::Full(_, name) => name.text.as_slice(),
    }
}

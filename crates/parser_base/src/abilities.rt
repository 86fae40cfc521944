//! Readers of the abilities of structs and of type parameters.

ghost use Rattle.std.specs.Prelude.{◌≡◌, length};
ghost use Rattle.parser_base.specs.ReadFault.{Reads};
ghost use Rattle.parser_base.specs.TokenReading.{before_sign};
ghost use Rattle.parser_base.specs.ListReading.{some_items_at};
ghost use Rattle.parser_base.specs.AbilityReading.{abilities_at, ability_at, ability_of, added_abilities_at, constraint_at, listed_abilities_at};

use crate::fault::ReadFault;
use crate::lists::{Separator, separator_before};
use crate::signs::{is_word, skip_sign, skip_word};
use std::alloc::Global;
use syntax_tree::member::{Abilities, Ability};
use tokens::token::{Punctuation, Token, TokenKind};

/// Returns the ability that a token names.
#[tactic(auto, unfolding(crate::specs::AbilityReading::ability_of))]
fn ability_of(kind: &TokenKind) -> Option<Ability>
    ensures { result ≡ ability_of kind.now }
{
    if is_word(kind, b"copy") {
        Some(Ability::Copy)
    } else if is_word(kind, b"drop") {
        Some(Ability::Drop)
    } else if is_word(kind, b"store") {
        Some(Ability::Store)
    } else if is_word(kind, b"key") {
        Some(Ability::Key)
    } else {
        None
    }
}

/// Reads an ability. Returns it and the remaining tokens.
#[tactic(auto, unfolding(crate::specs::AbilityReading::ability_at))]
fn read_ability(tokens: &[Token]) -> Result<(Ability, &[Token]), ReadFault>
    ensures { Reads result (λ read. (read.0, read.1.now)) (ability_at tokens.now) }
{
    match tokens.split_first() {
        Some((token, rest)) => match ability_of(&token.kind) {
            Some(ability) => Ok((ability, rest)),
            None => Err(ReadFault::NoTree { left: tokens.len() }),
        },
        None => Err(ReadFault::NoTree { left: 0 }),
    }
}

/// Reads more abilities after the first, with `+` before each.
#[tactic(auto, unfolding(crate::specs::AbilityReading::added_abilities_at))]
fn read_added_abilities(
    alloc: Global,
    first: Ability,
    tokens: &[Token],
) -> Result<(Vec<Ability>, &[Token]), ReadFault>
    ensures { Reads result (λ read. (read.0.items, read.1.now)) (added_abilities_at first tokens.now) }
{
    let mut items = Vec::new(alloc);
    items.push(first)?;
    let mut rest = tokens;
    for _ in 0..tokens.len() {
        let Some(inside) = skip_sign(rest, Punctuation::Plus) else {
            return Ok((items, rest));
        };
        let (item, behind) = read_ability(inside)?;
        items.push(item)?;
        rest = behind;
    }
    Ok((items, rest))
}

/// Reads the required abilities of a type parameter, if a colon is here. Returns them and the remaining tokens.
#[tactic(auto, unfolding(crate::specs::AbilityReading::constraint_at))]
pub fn read_constraint(
    alloc: Global,
    tokens: &[Token],
) -> Result<(Vec<Ability>, &[Token]), ReadFault>
    ensures { Reads result (λ read. (read.0.items, read.1.now)) (constraint_at tokens.now) }
{
    let Some(rest) = skip_sign(tokens, Punctuation::Colon) else {
        return Ok((Vec::new(alloc), tokens));
    };
    let (first, rest) = read_ability(rest)?;
    read_added_abilities(alloc, first, rest)
}

/// Reads abilities separated by commas up to the brace of a struct. Returns the abilities, whether a comma follows the
/// last, and the tokens from the brace on.
fn read_ability_list(
    alloc: Global,
    tokens: &[Token],
) -> Result<(Vec<Ability>, bool, &[Token]), ReadFault>
    ensures { Reads result (λ read. ((read.0.items, read.1), read.2.now)) (some_items_at (before_sign Punctuation.LeftBrace) ability_at tokens.now) }
{
    let mut items = Vec::new(alloc);
    let mut rest = tokens;
    for _ in 0..tokens.len() {
        let (item, behind) = read_ability(rest)?;
        items.push(item)?;
        match separator_before(behind, Punctuation::LeftBrace)? {
            (Separator::Next, behind) => rest = behind,
            (Separator::End, behind) => return Ok((items, false, behind)),
            (Separator::EndBehindComma, behind) => return Ok((items, true, behind)),
        }
    }
    Err(ReadFault::NoTree { left: 0 })
}

/// Reads the abilities after `has`. Returns them and the tokens from the brace on.
#[tactic(auto, unfolding(crate::specs::AbilityReading::listed_abilities_at))]
fn read_listed_abilities(
    alloc: Global,
    tokens: &[Token],
) -> Result<(Abilities, &[Token]), ReadFault>
    ensures { Reads result (λ read. (read.0, read.1.now)) (listed_abilities_at tokens.now) }
{
    let (items, last_comma, rest) = read_ability_list(alloc, tokens)?;
    Ok((Abilities { items, last_comma }, rest))
}

/// Reads the abilities of a struct, if `has` is here. Returns them and the tokens from the brace on.
#[tactic(auto, unfolding(crate::specs::AbilityReading::abilities_at))]
pub fn read_abilities(
    alloc: Global,
    tokens: &[Token],
) -> Result<(Option<Abilities>, &[Token]), ReadFault>
    ensures { Reads result (λ read. (read.0, read.1.now)) (abilities_at tokens.now) }
{
    let Some(rest) = skip_word(tokens, b"has") else {
        return Ok((None, tokens));
    };
    let (abilities, rest) = read_listed_abilities(alloc, rest)?;
    Ok((Some(abilities), rest))
}

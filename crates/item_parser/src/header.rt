//! Readers of the parts of a function before its name and after its inputs.

ghost use Rattle.std.specs.Prelude.{◌≡◌, length};
ghost use Rattle.parser_base.specs.ReadFault.{Reads};
ghost use Rattle.parser_base.specs.TokenReading.{before_sign};
ghost use Rattle.parser_base.specs.ListReading.{some_items_at};
ghost use Rattle.parser_base.specs.PathReading.{path_at};
ghost use Rattle.parser_base.specs.TypeReading.{type_at};
ghost use Rattle.item_parser.specs.HeaderReading.{acquires_at, entry_at, friends_at, listed_paths_at, public_at, visibility_at};

use base::span::Span;
use parser_base::fault::ReadFault;
use parser_base::lists::{Separator, separator_before};
use parser_base::path::read_path;
use parser_base::signs::{expect_sign, expect_word, skip_sign, skip_word, span_of_word};
use parser_base::types::read_type;
use std::alloc::Global;
use syntax_tree::member::{Paths, Visibility};
use syntax_tree::path::Path;
use syntax_tree::types::SourceType;
use tokens::token::{Punctuation, Token};

/// Reads `friend` after its parenthesis, for a `public` at `span`.
#[tactic(auto, unfolding(crate::specs::HeaderReading::friends_at))]
fn read_friends(span: Span, tokens: &[Token]) -> Result<(Visibility, &[Token]), ReadFault>
    ensures { Reads result (λ read. (read.0, read.1.now)) (friends_at span tokens.now) }
{
    let rest = expect_word(tokens, b"friend")?;
    let rest = expect_sign(rest, Punctuation::RightParenthesis)?;
    Ok((Visibility::Friends(span), rest))
}

/// Reads the visibility of a `public` at `span`, by what follows it.
#[tactic(auto, unfolding(crate::specs::HeaderReading::public_at))]
fn read_public(span: Span, tokens: &[Token]) -> Result<(Visibility, &[Token]), ReadFault>
    ensures { Reads result (λ read. (read.0, read.1.now)) (public_at span tokens.now) }
{
    match skip_sign(tokens, Punctuation::LeftParenthesis) {
        Some(inside) => read_friends(span, inside),
        None => Ok((Visibility::Public(span), tokens)),
    }
}

/// Reads the visibility of a function. Returns it and the remaining tokens.
#[tactic(auto, unfolding(crate::specs::HeaderReading::visibility_at))]
pub fn read_visibility(tokens: &[Token]) -> Result<(Visibility, &[Token]), ReadFault>
    ensures { Reads result (λ read. (read.0, read.1.now)) (visibility_at tokens.now) }
{
    match span_of_word(tokens, b"public") {
        Some((span, rest)) => read_public(span, rest),
        None => Ok((Visibility::Module, tokens)),
    }
}

/// Reads `entry`, if it is here. Returns its span and the remaining tokens.
#[tactic(auto, unfolding(crate::specs::HeaderReading::entry_at))]
pub fn read_entry(tokens: &[Token]) -> (Option<Span>, &[Token])
    ensures { (result.0, result.1.now) ≡ entry_at tokens.now }
{
    match span_of_word(tokens, b"entry") {
        Some((span, rest)) => (Some(span), rest),
        None => (None, tokens),
    }
}

/// Reads paths separated by commas up to the brace of a function. Returns the paths, whether a comma follows the last,
/// and the tokens from the brace on.
fn read_path_list(alloc: Global, tokens: &[Token]) -> Result<(Vec<Path>, bool, &[Token]), ReadFault>
    ensures { Reads result (λ read. ((read.0.items, read.1), read.2.now)) (some_items_at (before_sign Punctuation.LeftBrace) path_at tokens.now) }
{
    let mut items = Vec::new(alloc);
    let mut rest = tokens;
    for _ in 0..tokens.len() {
        let (item, behind) = read_path(alloc, rest)?;
        items.push(item)?;
        match separator_before(behind, Punctuation::LeftBrace)? {
            (Separator::Next, behind) => rest = behind,
            (Separator::End, behind) => return Ok((items, false, behind)),
            (Separator::EndBehindComma, behind) => return Ok((items, true, behind)),
        }
    }
    Err(ReadFault::NoTree { left: 0 })
}

/// Reads the paths after `acquires`. Returns them and the tokens from the brace on.
#[tactic(auto, unfolding(crate::specs::HeaderReading::listed_paths_at))]
fn read_listed_paths(alloc: Global, tokens: &[Token]) -> Result<(Paths, &[Token]), ReadFault>
    ensures { Reads result (λ read. (read.0, read.1.now)) (listed_paths_at tokens.now) }
{
    let (items, last_comma, rest) = read_path_list(alloc, tokens)?;
    Ok((Paths { items, last_comma }, rest))
}

/// Reads the structs in a function's `acquires`, if it is here. Returns them and the tokens from the function's brace
/// on.
#[tactic(auto, unfolding(crate::specs::HeaderReading::acquires_at))]
pub fn read_acquires(
    alloc: Global,
    tokens: &[Token],
) -> Result<(Option<Paths>, &[Token]), ReadFault>
    ensures { Reads result (λ read. (read.0, read.1.now)) (acquires_at tokens.now) }
{
    let Some(rest) = skip_word(tokens, b"acquires") else {
        return Ok((None, tokens));
    };
    let (paths, rest) = read_listed_paths(alloc, rest)?;
    Ok((Some(paths), rest))
}

//! Readers of uses and friends.

ghost use Rattle.std.specs.Prelude.{length};
ghost use Rattle.parser_base.specs.ReadFault.{Reads};
ghost use Rattle.parser_base.specs.TokenReading.{after_sign};
ghost use Rattle.parser_base.specs.ListReading.{some_items_at};
ghost use Rattle.item_parser.specs.ImportReading.{alias_at, friend_at, import_at, imported_at, imported_names_at, imports_at, use_at};

use base::span::Span;
use parser_base::fault::ReadFault;
use parser_base::lists::{Separator, separator_behind};
use parser_base::path::read_module_name;
use parser_base::signs::{expect_sign, read_identifier, skip_sign, skip_word};
use std::alloc::Global;
use syntax_tree::lexeme::Identifier;
use syntax_tree::member::{Friend, Import, Imported, Imports, Use};
use tokens::token::{Punctuation, Token};

/// Reads the alias after `as`, if an `as` is here. Returns the alias and the remaining tokens.
#[tactic(auto, unfolding(crate::specs::ImportReading::alias_at))]
fn read_alias(alloc: Global, tokens: &[Token]) -> Result<(Option<Identifier>, &[Token]), ReadFault>
    ensures { Reads result (λ read. (read.0, read.1.now)) (alias_at tokens.now) }
{
    let Some(rest) = skip_word(tokens, b"as") else {
        return Ok((None, tokens));
    };
    let (name, rest) = read_identifier(alloc, rest)?;
    Ok((Some(name), rest))
}

/// Reads an imported name. Returns it and the remaining tokens.
#[tactic(auto, unfolding(crate::specs::ImportReading::import_at))]
fn read_import(alloc: Global, tokens: &[Token]) -> Result<(Import, &[Token]), ReadFault>
    ensures { Reads result (λ read. (read.0, read.1.now)) (import_at tokens.now) }
{
    let (name, rest) = read_identifier(alloc, tokens)?;
    let (alias, rest) = read_alias(alloc, rest)?;
    Ok((Import { name, alias }, rest))
}

/// Reads imported names up to the closing brace. Returns the names, whether a comma follows the last, and the tokens
/// after the brace.
fn read_import_list(
    alloc: Global,
    tokens: &[Token],
) -> Result<(Vec<Import>, bool, &[Token]), ReadFault>
    ensures { Reads result (λ read. ((read.0.items, read.1), read.2.now)) (some_items_at (after_sign Punctuation.RightBrace) import_at tokens.now) }
{
    let mut items = Vec::new(alloc);
    let mut rest = tokens;
    for _ in 0..tokens.len() {
        let (item, behind) = read_import(alloc, rest)?;
        items.push(item)?;
        match separator_behind(behind, Punctuation::RightBrace)? {
            (Separator::Next, behind) => rest = behind,
            (Separator::End, behind) => return Ok((items, false, behind)),
            (Separator::EndBehindComma, behind) => return Ok((items, true, behind)),
        }
    }
    Err(ReadFault::NoTree { left: 0 })
}

/// Reads imported names after their brace.
#[tactic(auto, unfolding(crate::specs::ImportReading::imports_at))]
fn read_imports(alloc: Global, tokens: &[Token]) -> Result<(Imports, &[Token]), ReadFault>
    ensures { Reads result (λ read. (read.0, read.1.now)) (imports_at tokens.now) }
{
    let (items, last_comma, rest) = read_import_list(alloc, tokens)?;
    Ok((Imports { items, last_comma }, rest))
}

/// Reads the name or the names that are imported from a module.
#[tactic(auto, unfolding(crate::specs::ImportReading::imported_names_at))]
fn read_imported_names(alloc: Global, tokens: &[Token]) -> Result<(Imported, &[Token]), ReadFault>
    ensures { Reads result (λ read. (read.0, read.1.now)) (imported_names_at tokens.now) }
{
    if let Some(inside) = skip_sign(tokens, Punctuation::LeftBrace) {
        let (imports, rest) = read_imports(alloc, inside)?;
        return Ok((Imported::Several(imports), rest));
    }
    let (import, rest) = read_import(alloc, tokens)?;
    Ok((Imported::One(import), rest))
}

/// Reads what is imported, after the name of its module.
#[tactic(auto, unfolding(crate::specs::ImportReading::imported_at))]
fn read_imported(alloc: Global, tokens: &[Token]) -> Result<(Imported, &[Token]), ReadFault>
    ensures { Reads result (λ read. (read.0, read.1.now)) (imported_at tokens.now) }
{
    if let Some(rest) = skip_sign(tokens, Punctuation::ColonColon) {
        return read_imported_names(alloc, rest);
    }
    let (alias, rest) = read_alias(alloc, tokens)?;
    Ok((Imported::Module(alias), rest))
}

/// Reads a use after its word at `span`. Returns it and the tokens after its semicolon.
#[tactic(auto, unfolding(crate::specs::ImportReading::use_at))]
pub fn read_use(alloc: Global, span: Span, tokens: &[Token]) -> Result<(Use, &[Token]), ReadFault>
    ensures { Reads result (λ read. (read.0, read.1.now)) (use_at span tokens.now) }
{
    let (owner, rest) = read_module_name(alloc, tokens)?;
    let (imported, rest) = read_imported(alloc, rest)?;
    let rest = expect_sign(rest, Punctuation::Semicolon)?;
    Ok((
        Use {
            span,
            owner,
            imported,
        },
        rest,
    ))
}

/// Reads a friend after its word at `span`. Returns it and the tokens after its semicolon.
#[tactic(auto, unfolding(crate::specs::ImportReading::friend_at))]
pub fn read_friend(
    alloc: Global,
    span: Span,
    tokens: &[Token],
) -> Result<(Friend, &[Token]), ReadFault>
    ensures { Reads result (λ read. (read.0, read.1.now)) (friend_at span tokens.now) }
{
    let (owner, rest) = read_module_name(alloc, tokens)?;
    let rest = expect_sign(rest, Punctuation::Semicolon)?;
    Ok((Friend { span, owner }, rest))
}

//! The source trees of files.

ghost use Rattle.std.specs.Prelude.{◌≡◌, ◌≤◌, ◌^◌, length, IfOk, MatchResult};
ghost use Rattle.tokens.specs.declared.token.Token.{Token};
ghost use Rattle.syntax_tree.specs.DenotedSources.{IsSourceOf};
ghost use Rattle.front_end.specs.FileFault.{IfInFile};
ghost use Rattle.front_end.specs.FileReading.{IsIn};
ghost use Rattle.front_end.specs.Sources.{DenoteNone, left_out, source_stage};

use crate::fault::{FileFault, ProgramFault};
use base::memory::NoMemory;
use base::name::Name;
use base::rule::Rule;
use item_parser::source::denoted::source;
use parser_base::explain::{ParseFault, start_at};
use parser_base::marker::marker_at;
use std::alloc::Global;
use syntax_tree::source::Source;
use tokens::token::{Token, Tokens};

/// The fault of a file with these tokens, whose first marker has this index.
fn left_out(alloc: Global, tokens: &[Token], index: usize) -> Result<FileFault, NoMemory>
    ensures { IfOk result (λ fault. fault ≡ left_out tokens.now index) }
{
    let marker = Name::from_slice(alloc, marker_at(tokens, index))?;
    let offset = start_at(tokens, index);
    Ok(FileFault::Breaks(Rule::LeftOut, offset, Some(marker)))
}

/// Reads the source of the file with this number.
fn read_source(alloc: Global, number: u32, text: &Tokens) -> Result<Source, ProgramFault>
    ensures { MatchResult result (λ found. IsSourceOf found text.now) (λ fault. IfInFile fault (IsIn number (DenoteNone number text.now))) }
{
    match source(alloc, text) {
        Ok(found) => Ok(found),
        Err(ParseFault::Grammar(offset)) => {
            let fault = FileFault::breaks(Rule::Grammar, offset);
            Err(ProgramFault::InFile(number, fault))
        }
        Err(ParseFault::LeftOut(index)) => {
            let fault = left_out(alloc, text.as_slice(), index)?;
            Err(ProgramFault::InFile(number, fault))
        }
        Err(ParseFault::NoMemory) => Err(ProgramFault::NoMemory),
    }
}

/// Reads the source of each file.
///
/// # Errors
///
/// `Grammar` or `LeftOut` if and only if the tokens of a file denote no source, with the first such file.
pub fn read_sources(alloc: Global, texts: &[Tokens]) -> Result<Vec<Source>, ProgramFault>
    requires few { length texts.now ≤ 2 ^ 32 }
    ensures { MatchResult result (λ sources. source_stage.Gives texts.now sources.items) (λ fault. IfInFile fault (source_stage.Stops texts.now)) }
{
    let mut sources = Vec::new(alloc);
    for (number, text) in texts.iter().enumerate() {
        sources.push(read_source(alloc, number as u32, text)?)?;
    }
    Ok(sources)
}

//! The source that tokens denote.

ghost use Rattle.std.specs.Prelude.{◌≡◌, List, IfOk, IfErr};
ghost use Rattle.tokens.specs.declared.token.Token.{Token};
ghost use Rattle.item_parser.specs.SourceDenoted.{IsCause};
ghost use Rattle.syntax_tree.specs.DenotedSources.{IsSourceOf};
ghost use Rattle.item_parser.specs.SourceFileReading.{MatchesFile};
ghost use Rattle.syntax_tree.specs.SourceModuleData.{SourceModuleData};

use crate::denoted::{modules, one_file};
use crate::source::ending::end_of_blocks;
use crate::source::fault::SpecFault;
use crate::source::module::read_modules;
use base::memory::NoMemory;
use parser_base::explain::{ParseFault, explain_at};
use std::alloc::Global;
use syntax_tree::member::File;
use syntax_tree::source::Source;
use tokens::token::{Token, Tokens};

/// Returns the source of a file: its trees with those of its spec blocks.
fn source_of(alloc: Global, file: File) -> Result<Source, SpecFault>
    ensures { MatchesFile «file» result }
{
    let modules = read_modules(alloc, file.modules)?;
    Ok(Source { modules })
}

/// Returns the byte offset at which reading the tokens ended: in a spec block, if this is before `file_end`, or at
/// `file_end`.
fn end_of_source(alloc: Global, tokens: &[Token], file_end: u32) -> Result<u32, NoMemory> {
    match end_of_blocks(alloc, tokens)? {
        Some(span) if span < file_end => Ok(span),
        _ => Ok(file_end),
    }
}

/// Returns the source that the tokens of a file denote: they denote a file, and each of its spec blocks, including
/// those of loops, is proper for its slot.
///
/// # Errors
///
/// `Grammar` exactly if the tokens denote no source and hold no marker of a form that is left out; its byte offset,
/// about where reading ended in the file or in a spec block before, is a hint that no clause pins. `LeftOut` exactly if
/// they denote none and hold a marker, with the index of the first one. `NoMemory` if memory runs out.
pub fn source(alloc: Global, tokens: &Tokens) -> Result<Source, ParseFault>
    ensures denoted { IfOk result (λ source. IsSourceOf source tokens.now) }
    ensures refused { IfErr result (λ fault. IsCause tokens.now fault) }
{
    one_file();
    let items = tokens.as_slice();
    match modules(alloc, tokens) {
        Ok(file) => match source_of(alloc, file) {
            Ok(source) => Ok(source),
            Err(SpecFault::NoTree) => {
                let span = end_of_source(alloc, items, u32::MAX)?;
                Err(explain_at(items, span))
            }
            Err(SpecFault::NoMemory) => Err(ParseFault::NoMemory),
        },
        Err(ParseFault::Grammar(span)) => {
            let span = end_of_source(alloc, items, span)?;
            Err(ParseFault::Grammar(span))
        }
        Err(fault) => Err(fault),
    }
}

/// Law: tokens denote at most one source.
pub fn one_source()
    ensures { (tokens : List Token) (one other : List SourceModuleData)
        → IsSourceOf one tokens → IsSourceOf other tokens → one ≡ other }
{}

//! The sources of a case, read.

use crate::case_file::SourceText;
use base::memory::NoMemory;
use item_parser::source::denoted::source;
use parser_base::explain::ParseFault;
use std::alloc::Global;
use syntax_tree::source::Source;
use tokens::scanner::tokens;
use tokens::token::{TokenFault, Tokens};

/// The greatest number of bytes of a source of a case.
const LIMIT: usize = 1_000_000;

/// The tokens of a text, or why it has none.
pub fn scan(alloc: Global, file: u32, text: &str) -> Result<Tokens, TokenFault> {
    let bytes = text.as_bytes();
    if bytes.len() > LIMIT {
        return Err(TokenFault::BadToken(0));
    }
    tokens(alloc, file, bytes)
}

/// The source that a text is; nothing where it is none.
fn source_of(alloc: Global, file: u32, text: &str) -> Result<Option<Source>, NoMemory> {
    let found = match scan(alloc, file, text) {
        Ok(found) => found,
        Err(TokenFault::NoMemory) => return Err(NoMemory),
        Err(_) => return Ok(None),
    };
    match source(alloc, &found) {
        Ok(source) => Ok(Some(source)),
        Err(ParseFault::NoMemory) => Err(NoMemory),
        Err(_) => Ok(None),
    }
}

/// The sources that the texts of a case are; nothing where one is none.
pub fn sources_of(alloc: Global, texts: &[SourceText]) -> Result<Option<Vec<Source>>, NoMemory> {
    let mut sources = Vec::new(alloc);
    for (file, text) in texts.iter().enumerate() {
        let Ok(file) = u32::try_from(file) else {
            return Ok(None);
        };
        match source_of(alloc, file, text.text.as_str())? {
            Some(source) => sources.push(source)?,
            None => return Ok(None),
        }
    }
    Ok(Some(sources))
}

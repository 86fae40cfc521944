//! The tokens of files, within their limits.

ghost use Rattle.std.specs.Prelude.{◌≡◌, ◌<◌, ◌≤◌, ◌^◌, length, map, MatchResult};
ghost use Rattle.std.specs.List.{AllByRecursion};
ghost use Rattle.front_end.specs.FileFault.{IfInFile};
ghost use Rattle.front_end.specs.FileReading.{IsIn};
ghost use Rattle.front_end.specs.Numbered.{Each, EachPair};
ghost use Rattle.front_end.specs.Texts.{HasBadToken, IsLight, nesting_stage, text_stages, tokens_stage};
ghost use Rattle.front_end.specs.TextReading.{IsFirstLong, IsText};
ghost use Rattle.front_end.specs.declared.texts.Text.TheVariants.{Short};

use crate::fault::{FileFault, FileLimit, ProgramFault};
use base::lists::Bytes;
use base::rule::Rule;
use std::alloc::Global;
use tokens::scanner::tokens;
use tokens::token::{TokenFault, Tokens};
use tokens::weight::{WEIGHT_LIMIT, weight};

/// The tokens of a file, or their number where there are too many.
#[derive(Drop)]
enum Text {
    Short(Tokens),
    Long(u32),
}

/// Reads the tokens of the file with this number.
fn spell(alloc: Global, number: u32, bytes: &[u8]) -> Result<Text, ProgramFault>
    requires { length bytes.now < 2 ^ 32 }
    ensures { MatchResult result (IsText number bytes.now) (λ fault. IfInFile fault (IsIn number (HasBadToken number bytes.now))) }
{
    match tokens(alloc, number, bytes) {
        Ok(found) => Ok(Text::Short(found)),
        Err(TokenFault::TooMany(count)) => Ok(Text::Long(count)),
        Err(TokenFault::BadToken(offset)) => {
            let fault = FileFault::breaks(Rule::BadToken, offset);
            Err(ProgramFault::InFile(number, fault))
        }
        Err(TokenFault::NoMemory) => Err(ProgramFault::NoMemory),
    }
}

/// Reads the tokens of each file.
fn spell_each(alloc: Global, files: &[Bytes]) -> Result<Vec<Text>, ProgramFault>
    requires few { length files.now ≤ 2 ^ 32 }
    requires short { AllByRecursion (λ bytes. length bytes < 2 ^ 32) files.now }
    ensures { MatchResult result (λ texts. EachPair IsText 0 files.now texts.items) (λ fault. IfInFile fault (tokens_stage.Stops files.now)) }
{
    let mut texts = Vec::new(alloc);
    for (number, bytes) in files.iter().enumerate() {
        texts.push(spell(alloc, number as u32, bytes.as_slice())?)?;
    }
    Ok(texts)
}

/// Returns the tokens, if no file has too many.
fn take_short(alloc: Global, texts: Vec<Text>) -> Result<Vec<Tokens>, ProgramFault>
    requires few { length texts.items ≤ 2 ^ 32 }
    ensures { MatchResult result (λ found. map Short found.items ≡ texts.items) (λ fault. IfInFile fault (IsFirstLong texts.items)) }
{
    let mut found = Vec::new(alloc);
    for (number, text) in texts.into_iter().enumerate() {
        match text {
            Text::Short(tokens) => found.push(tokens)?,
            Text::Long(count) => {
                let fault = FileFault::Passes(FileLimit::Tokens, u64::from(count));
                return Err(ProgramFault::InFile(number as u32, fault));
            }
        }
    }
    Ok(found)
}

/// Checks that the tokens of each file nest within their limit.
fn check_nesting(texts: &[Tokens]) -> Result<(), ProgramFault>
    requires few { length texts.now ≤ 2 ^ 32 }
    ensures { MatchResult result (λ _. Each IsLight 0 texts.now) (λ fault. IfInFile fault (nesting_stage.Stops texts.now)) }
{
    for (number, text) in texts.iter().enumerate() {
        if weight(text) >= WEIGHT_LIMIT {
            let fault = FileFault::Passes(FileLimit::Nesting, u64::from(WEIGHT_LIMIT));
            return Err(ProgramFault::InFile(number as u32, fault));
        }
    }
    Ok(())
}

/// Returns the tokens of each file, within their limits.
///
/// # Errors
///
/// In this order, each over all files before the next, with the first such file: `BadToken` if and only if no tokens
/// spell a file; the limit of tokens if and only if a file has too many; that of nesting if and only if they nest too
/// deep.
pub fn read_texts(alloc: Global, files: &[Bytes]) -> Result<Vec<Tokens>, ProgramFault>
    requires few { length files.now ≤ 2 ^ 32 }
    requires short { AllByRecursion (λ bytes. length bytes < 2 ^ 32) files.now }
    ensures { MatchResult result (λ texts. text_stages.Gives files.now texts.items) (λ fault. IfInFile fault (text_stages.Stops files.now)) }
{
    let texts = take_short(alloc, spell_each(alloc, files)?)?;
    check_nesting(texts.as_slice())?;
    Ok(texts)
}

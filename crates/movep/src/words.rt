//! The words of the command line.

ghost use Rattle.std.specs.Prelude.{◌≡◌, ℕ, ◌<◌, ◌≤◌, List, length, take, drop, slice_get, IfOk, IfSome, Option, Some};
ghost use Rattle.movep.specs.CommandLines.{OnMissing, IsWordAt};

use base::lists::Words;
use base::memory::NoMemory;
use base::name::Name;
use std::alloc::Global;
use std::env::{Env, FillError};

/// The words of a command line, the program's name first.
pub trait CommandLine {
    /// The words, if the command line makes them known.
    ghost words: { Self → Option (List (List ℕ)) } = { λ _. Rattle.std.specs.Prelude.None };

    /// Copies the word with this number to the front of `buffer`, and returns its length. The bytes need not be text.
    /// `NotPresent` if there are no more words, `TooLong` if the word is longer than the buffer.
    fn word(&self, number: usize, buffer: &mut [u8]) -> Result<usize, FillError>
        ensures within { IfOk result (λ count. count ≤ length buffer.new) }
        ensures found { IfOk result (λ count. IfSome (words self.now) (λ ws. slice_get ws number ≡ Some (take count buffer.new))) }
        ensures missing { OnMissing result (IfSome (words self.now) (λ ws. length ws ≤ number)) };
}

/// The words that the system gives to the program. Contracts do not know them.
#[derive(Drop)]
pub struct SystemWords<'a, R> {
    env: &'a R,
}

impl<'a, R> SystemWords<'a, R> {
    /// The words of this environment.
    pub fn new(env: &'a R) -> SystemWords<'a, R> {
        SystemWords { env }
    }
}

impl<R: Env> CommandLine for SystemWords<'_, R> {
    fn word(&self, number: usize, buffer: &mut [u8]) -> Result<usize, FillError> {
        self.env.arg(number, buffer)
    }
}

/// Returns the words of the command line after the program's name, in their order. `NoMemory` if memory runs out, or if
/// a word or their number goes beyond what a memory can hold.
pub fn collect_words<C: CommandLine>(alloc: Global, line: &C) -> Result<Words, NoMemory>
    ensures { IfOk result (λ found. IfSome (C.words line.now) (λ ws. found ≡ drop 1 ws)) }
{
    let mut words = Words::new(alloc);
    for number in 1..usize::MAX {
        match read_word(alloc, line, number)? {
            Some(word) => words.push(word)?,
            None => return Ok(words),
        }
    }
    Err(NoMemory)
}

/// The word with this number; `None` if there is none. The buffer doubles until the word fits.
fn read_word<C: CommandLine>(
    alloc: Global,
    line: &C,
    number: usize,
) -> Result<Option<Name>, NoMemory>
    ensures { IfOk result (λ word. IfSome (C.words line.now) (λ ws. IsWordAt ws number word)) }
{
    let mut buffer = vec![in alloc; 0u8; 256]?;
    for _ in 0..usize::BITS {
        match line.word(number, buffer.as_mut_slice()) {
            Ok(length) => return Ok(Some(Name::from_slice(alloc, &buffer[..length])?)),
            Err(FillError::NotPresent) => return Ok(None),
            Err(FillError::TooLong) => {
                let length = buffer.len().saturating_mul(2);
                buffer.resize(length, 0)?;
            }
        }
    }
    Err(NoMemory)
}

//! Lines that are put together piece by piece.

use base::memory::NoMemory;
use base::name::Name;
use std::alloc::Global;

/// Puts a name at the end of a line; a name is ASCII, since a scanner made it.
pub fn push_name(line: &mut String, name: &Name) -> Result<(), NoMemory> {
    match str::from_utf8(name.as_slice()) {
        Ok(text) => line.push_str(text)?,
        Err(_) => line.push('?')?,
    }
    Ok(())
}

/// Puts a number at the end of a line.
pub fn push_number(alloc: Global, line: &mut String, number: usize) -> Result<(), NoMemory> {
    let digits = number.to_string(alloc)?;
    line.push_str(digits.as_str())?;
    Ok(())
}

/// Puts a word behind a blank at the end of a line.
pub fn push_word(line: &mut String, word: &str) -> Result<(), NoMemory> {
    line.push(' ')?;
    line.push_str(word)?;
    Ok(())
}

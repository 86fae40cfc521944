//! Files of cases.
//!
//! The first line has the word of a kind, and perhaps the words `each line`.
//!
//! Without these words, a line `=== TITLE` begins each case. In a case a line `--- NAME` begins a source of that name,
//! which the following lines are; a source without such a line is `a.move`. A line `$ WORDS` has the words of a command
//! line, which may be none; without such a line, they are the names of the sources.
//!
//! With them, each line is a case by itself, with that line as its source `a.move`; an empty line and a line that
//! begins with `//` are none. Where the file has a line `===`, the sources above it belong to each case.
//!
//! No source has a line of these forms: `===` and `---` are no signs of Move that can follow one another, and `$` is none.

use crate::kind::Kind;
use base::memory::NoMemory;
use std::alloc::Global;

/// A source of a case.
#[derive(Drop)]
pub struct SourceText {
    pub name: String,
    pub text: String,
}

/// A case: sources, and the words of a command line where they are not the names of these.
#[derive(Drop)]
pub struct Case {
    pub title: String,
    pub words: Option<String>,
    pub sources: Vec<SourceText>,
}

/// A file of cases of one kind.
#[derive(Drop)]
pub struct CaseFile {
    pub kind: Kind,
    pub cases: Vec<Case>,
}

impl SourceText {
    fn new(alloc: Global, name: &str) -> Result<SourceText, NoMemory> {
        Ok(SourceText {
            name: String::from_str(alloc, name)?,
            text: String::new(alloc),
        })
    }

    /// A second copy of a source.
    fn try_clone(&self, alloc: Global) -> Result<SourceText, NoMemory> {
        Ok(SourceText {
            name: String::from_str(alloc, self.name.as_str())?,
            text: String::from_str(alloc, self.text.as_str())?,
        })
    }
}

impl Case {
    fn new(alloc: Global, title: &str) -> Result<Case, NoMemory> {
        Ok(Case {
            title: String::from_str(alloc, title)?,
            words: None,
            sources: Vec::new(alloc),
        })
    }

    /// A case whose last source is this line, behind those that all cases share.
    fn of_line(alloc: Global, shared: &[SourceText], line: &str) -> Result<Case, NoMemory> {
        let mut case = Case::new(alloc, line)?;
        for source in shared {
            case.sources.push(source.try_clone(alloc)?)?;
        }
        let mut source = SourceText::new(alloc, "a.move")?;
        source.text.push_str(line)?;
        case.sources.push(source)?;
        Ok(case)
    }

    /// Puts a line into the last source, which is begun where there is none.
    fn push_line(&mut self, alloc: Global, line: &str) -> Result<(), NoMemory> {
        if self.sources.is_empty() {
            self.sources.push(SourceText::new(alloc, "a.move")?)?;
        }
        if let Some(source) = self.sources.last_mut() {
            source.text.push_str(line)?;
            source.text.push('\n')?;
        }
        Ok(())
    }

    /// Reads a line of a case: the head of a source, the words of a command line, or a line of a source.
    fn read_line(&mut self, alloc: Global, line: &str) -> Result<(), NoMemory> {
        if let Some(name) = line.strip_prefix("--- ") {
            self.sources.push(SourceText::new(alloc, name)?)?;
            return Ok(());
        }
        match line.strip_prefix('$') {
            Some(words) => {
                self.words = Some(String::from_str(alloc, words)?);
                Ok(())
            }
            None => self.push_line(alloc, line),
        }
    }
}

/// The cases of lines each of which is one.
fn cases_by_line(alloc: Global, shared: &[SourceText], lines: &str) -> Result<Vec<Case>, NoMemory> {
    let mut cases = Vec::new(alloc);
    for line in lines.lines() {
        if !line.is_empty() && !line.starts_with("//") {
            cases.push(Case::of_line(alloc, shared, line)?)?;
        }
    }
    Ok(cases)
}

/// The cases that lines `===` begin.
fn cases_by_title(alloc: Global, text: &str) -> Result<Vec<Case>, NoMemory> {
    let mut cases: Vec<Case> = Vec::new(alloc);
    for line in text.lines() {
        if line.starts_with("=== ") {
            cases.push(Case::new(alloc, line)?)?;
        } else if let Some(case) = cases.last_mut() {
            case.read_line(alloc, line)?;
        }
    }
    Ok(cases)
}

/// The sources that lines are.
fn shared_sources(alloc: Global, text: &str) -> Result<Vec<SourceText>, NoMemory> {
    let mut case = Case::new(alloc, "")?;
    for line in text.lines() {
        case.read_line(alloc, line)?;
    }
    Ok(case.sources)
}

impl CaseFile {
    /// The cases of a file; nothing where its first line has no word of a kind.
    pub fn read(alloc: Global, text: &str) -> Result<Option<CaseFile>, NoMemory> {
        let Some((head, body)) = text.split_once('\n') else {
            return Ok(None);
        };
        let (word, is_by_line) = match head.strip_suffix(" each line") {
            Some(word) => (word, true),
            None => (head, false),
        };
        let Some(kind) = Kind::named(word) else {
            return Ok(None);
        };
        let cases = if !is_by_line {
            cases_by_title(alloc, body)?
        } else if let Some((shared, lines)) = body.split_once("\n===\n") {
            let sources = shared_sources(alloc, shared)?;
            cases_by_line(alloc, sources.as_slice(), lines)?
        } else {
            cases_by_line(alloc, &[], body)?
        };
        Ok(Some(CaseFile { kind, cases }))
    }
}

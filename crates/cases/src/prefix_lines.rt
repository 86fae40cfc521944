//! What the verifier writes of each beginning of a source.

use crate::case_file::{Case, SourceText};
use crate::report_lines::report_lines;
use base::memory::NoMemory;
use std::alloc::Global;

/// The case of the first so many bytes of a text.
fn beginning(alloc: Global, name: &str, text: &str, length: usize) -> Result<Case, NoMemory> {
    let mut sources = Vec::new(alloc);
    let front = text.get(..length).unwrap_or("");
    sources.push(SourceText {
        name: String::from_str(alloc, name)?,
        text: String::from_str(alloc, front)?,
    })?;
    Ok(Case {
        title: String::new(alloc),
        words: None,
        sources,
    })
}

/// The lines of an answer as one.
fn joined(alloc: Global, answer: &str) -> Result<String, NoMemory> {
    let mut line = String::new(alloc);
    for part in answer.lines() {
        if !line.is_empty() {
            line.push_str(", ")?;
        }
        line.push_str(part)?;
    }
    Ok(line)
}

fn push_run(
    alloc: Global,
    lines: &mut String,
    first: usize,
    last: usize,
    answer: &str,
) -> Result<(), NoMemory> {
    let text = format!(in alloc; "{first} to {last}: {answer}\n")?;
    lines.push_str(text.as_str())?;
    Ok(())
}

/// What the verifier answers to each beginning of a source but the empty one and the whole, where neighbours with one
/// answer stand together.
pub fn prefix_lines(alloc: Global, case: &Case) -> Result<String, NoMemory> {
    let mut lines = String::new(alloc);
    let Some(source) = case.sources.first() else {
        return Ok(lines);
    };
    let mut first: usize = 1;
    let mut answer = String::new(alloc);
    let length = source.text.len();
    for count in 1..length {
        let case = beginning(alloc, source.name.as_str(), source.text.as_str(), count)?;
        let known = joined(alloc, report_lines(alloc, &case)?.as_str())?;
        if known.as_str() != answer.as_str() {
            if count > first {
                push_run(
                    alloc,
                    &mut lines,
                    first,
                    count.saturating_sub(1),
                    answer.as_str(),
                )?;
            }
            first = count;
            answer = known;
        }
    }
    push_run(
        alloc,
        &mut lines,
        first,
        length.saturating_sub(1),
        answer.as_str(),
    )?;
    Ok(lines)
}

//! The line printed for a run without a report.

ghost use Rattle.std.specs.Prelude.{◌≡◌, ◌++◌, IfOk, OnOk};
ghost use Rattle.report.specs.Status.{files_limit_line, limit_line, marker_prefix, no_memory_line, refusal_line, source_fault_line, usage_line};

use crate::status::{LimitKind, Refusal};
use crate::text::push_decimal;
use base::lists::Bytes;
use base::memory::NoMemory;
use base::name::Name;
use std::alloc::Global;

/// The line for words that are not valid for this program.
pub fn usage_line() -> &'static [u8]
    ensures { result.now ≡ usage_line }
{
    b"usage: movep [FILE]...\n"
}

/// The line for a run that ran out of memory.
pub fn no_memory_line() -> &'static [u8]
    ensures { result.now ≡ no_memory_line }
{
    b"no memory\n"
}

/// Appends a marker and a blank, if there is a marker.
fn push_marker(text: &mut Bytes, marker: &Option<Name>) -> Result<(), NoMemory>
    ensures { OnOk result (text.new ≡ text.old ++ marker_prefix marker.now) }
{
    if let Some(marker) = marker {
        text.extend_from_slice(marker.as_slice())?;
        text.extend_from_slice(b" ")?;
    }
    Ok(())
}

/// The line for a file that breaks a rule. `NoMemory` if memory runs out.
pub fn refusal_line(alloc: Global, file: &Name, refusal: &Refusal) -> Result<Bytes, NoMemory>
    ensures { IfOk result (λ text. text ≡ refusal_line file.now refusal.now) }
{
    let mut text = Bytes::new(alloc);
    text.extend_from_slice(b"refused ")?;
    push_decimal(alloc, &mut text, u64::from(refusal.rule.number()))?;
    text.extend_from_slice(b" ")?;
    text.extend_from_slice(refusal.rule.text())?;
    text.extend_from_slice(b" ")?;
    push_marker(&mut text, &refusal.marker)?;
    text.extend_from_slice(file.as_slice())?;
    text.extend_from_slice(b":")?;
    push_decimal(alloc, &mut text, u64::from(refusal.line))?;
    text.extend_from_slice(b"\n")?;
    Ok(text)
}

/// The line for a run with more files than allowed: this many. `NoMemory` if memory runs out.
pub fn files_limit_line(alloc: Global, count: u64) -> Result<Bytes, NoMemory>
    ensures { IfOk result (λ text. text ≡ files_limit_line count) }
{
    let mut text = Bytes::new(alloc);
    text.extend_from_slice(b"limit files ")?;
    push_decimal(alloc, &mut text, count)?;
    text.extend_from_slice(b"\n")?;
    Ok(text)
}

/// The line for a file that could not be fetched. `NoMemory` if memory runs out.
pub fn source_fault_line(alloc: Global, file: &Name) -> Result<Bytes, NoMemory>
    ensures { IfOk result (λ text. text ≡ source_fault_line file.now) }
{
    let mut text = Bytes::new(alloc);
    text.extend_from_slice(b"fault source ")?;
    text.extend_from_slice(file.as_slice())?;
    text.extend_from_slice(b"\n")?;
    Ok(text)
}

/// The line for a file that exceeds a limit. `NoMemory` if memory runs out.
pub fn limit_line(alloc: Global, file: &Name, kind: LimitKind) -> Result<Bytes, NoMemory>
    ensures { IfOk result (λ text. text ≡ limit_line file.now kind) }
{
    let mut text = Bytes::new(alloc);
    text.extend_from_slice(b"limit ")?;
    text.extend_from_slice(kind.text())?;
    text.extend_from_slice(b" ")?;
    text.extend_from_slice(file.as_slice())?;
    text.extend_from_slice(b"\n")?;
    Ok(text)
}

//! The lines of a report.

ghost use Rattle.std.specs.Prelude.{◌≡◌, ◌++◌, [], slice_index_or, IfOk, OnOk};
ghost use Rattle.report.specs.ReportText.{check_text, condition_line, condition_lines, condition_verdict_text, value_line, count_line, function_line, function_lines, function_verdict_text, kind_text, lines_of_report, report_text};
ghost use Rattle.report.specs.ReportData.{ReportData};
ghost use Rattle.report.specs.Known.{IsPrintedReport, verdicts_of_report};

use crate::report::{
    ConditionRecord, ConditionVerdict, FunctionRecord, FunctionVerdict, ParameterValue, Report,
};
use crate::text::{Lines, push_decimal, push_hexadecimal, push_whole};
use base::condition::ConditionKind;
use base::lists::Bytes;
use base::memory::NoMemory;
use base::name::Name;
use std::alloc::Global;

/// The word in a report for a kind of condition.
fn kind_text(kind: ConditionKind) -> &'static [u8]
    ensures { result.now ≡ kind_text kind }
{
    match kind {
        ConditionKind::Ensures => b"ensures",
        ConditionKind::AbortsIf => b"aborts_if",
        ConditionKind::Aborts => b"aborts",
    }
}

/// Appends the words in a report for a condition's verdict.
fn push_verdict(alloc: Global, text: &mut Bytes, verdict: ConditionVerdict) -> Result<(), NoMemory>
    ensures { OnOk result (text.new ≡ text.old ++ condition_verdict_text verdict) }
{
    match verdict {
        ConditionVerdict::Proved => text.extend_from_slice(b"proved"),
        ConditionVerdict::Open => text.extend_from_slice(b"open"),
        ConditionVerdict::Wide => text.extend_from_slice(b"wide"),
        ConditionVerdict::Rows => text.extend_from_slice(b"rows"),
        ConditionVerdict::Budget(steps) => {
            text.extend_from_slice(b"budget ")?;
            push_decimal(alloc, text, steps)
        }
        ConditionVerdict::Size => text.extend_from_slice(b"size certificate"),
    }
}

impl FunctionVerdict {
    /// The word in a report for this verdict.
    pub fn text(self) -> &'static [u8]
        ensures { result.now ≡ function_verdict_text self }
    {
        match self {
            FunctionVerdict::Proved => b"proved",
            FunctionVerdict::Unknown => b"unknown",
        }
    }
}

/// The line of a function.
fn function_line(alloc: Global, function: &FunctionRecord) -> Result<Bytes, NoMemory>
    ensures { IfOk result (λ line. line ≡ function_line function.now) }
{
    let mut line = Bytes::new(alloc);
    line.extend_from_slice(b"0x")?;
    push_hexadecimal(&mut line, function.address)?;
    line.extend_from_slice(b"::")?;
    line.extend_from_slice(function.module_name.as_slice())?;
    line.extend_from_slice(b"::")?;
    line.extend_from_slice(function.name.as_slice())?;
    line.extend_from_slice(b": ")?;
    line.extend_from_slice(function.verdict.text())?;
    line.extend_from_slice(b"\n")?;
    Ok(line)
}

/// Appends the line number of a check that is apart from its clause.
fn push_check_line(alloc: Global, text: &mut Bytes, check_line: Option<u32>) -> Result<(), NoMemory>
    ensures { OnOk result (text.new ≡ text.old ++ check_text check_line) }
{
    if let Some(line) = check_line {
        text.extend_from_slice(b" at ")?;
        push_decimal(alloc, text, u64::from(line))?;
    }
    Ok(())
}

/// The name of the file with this number; no bytes if there is no such file.
fn file_name(files: &[Name], number: u32) -> &[u8]
    ensures { result.now ≡ slice_index_or files.now number [] }
{
    match files.get(number as usize) {
        Some(name) => name.as_slice(),
        None => b"",
    }
}

/// The line of a condition.
fn condition_line(
    alloc: Global,
    files: &[Name],
    condition: &ConditionRecord,
) -> Result<Bytes, NoMemory>
    ensures { IfOk result (λ line. line ≡ condition_line files.now condition.now) }
{
    let mut line = Bytes::new(alloc);
    line.extend_from_slice(b"  ")?;
    line.extend_from_slice(kind_text(condition.kind))?;
    line.extend_from_slice(b" ")?;
    line.extend_from_slice(file_name(files, condition.file))?;
    line.extend_from_slice(b":")?;
    push_decimal(alloc, &mut line, u64::from(condition.line))?;
    push_check_line(alloc, &mut line, condition.check_line)?;
    line.extend_from_slice(b": ")?;
    push_verdict(alloc, &mut line, condition.verdict)?;
    line.extend_from_slice(b"\n")?;
    Ok(line)
}

/// The line of a parameter's value.
fn value_line(alloc: Global, value: &ParameterValue) -> Result<Bytes, NoMemory>
    ensures { IfOk result (λ line. line ≡ value_line value.now) }
{
    let mut line = Bytes::new(alloc);
    line.extend_from_slice(b"    ")?;
    line.extend_from_slice(value.name.as_slice())?;
    line.extend_from_slice(b" = ")?;
    push_whole(alloc, &mut line, value.number)?;
    line.extend_from_slice(b"\n")?;
    Ok(line)
}

/// Appends the line of a condition, and those of its values.
fn push_condition_lines(
    alloc: Global,
    lines: &mut Lines,
    files: &[Name],
    condition: &ConditionRecord,
) -> Result<(), NoMemory>
    ensures { OnOk result (lines.new ≡ lines.old ++ condition_lines files.now condition.now) }
{
    lines.push(condition_line(alloc, files, condition)?)?;
    for value in &condition.values {
        lines.push(value_line(alloc, value)?)?;
    }
    Ok(())
}

/// The line that counts the proved functions.
fn count_line(alloc: Global, functions: &[FunctionRecord]) -> Result<Bytes, NoMemory>
    ensures { IfOk result (λ line. line ≡ count_line functions.now) }
{
    let proved = functions
        .iter()
        .filter(|function| function.verdict == FunctionVerdict::Proved)
        .count();
    let mut line = Bytes::new(alloc);
    line.extend_from_slice(b"proved ")?;
    push_decimal(alloc, &mut line, proved as u64)?;
    line.extend_from_slice(b" of ")?;
    push_decimal(alloc, &mut line, functions.len() as u64)?;
    line.extend_from_slice(b"\n")?;
    Ok(line)
}

/// Appends the line of a function, and those of its conditions.
fn push_function_lines(
    alloc: Global,
    lines: &mut Lines,
    files: &[Name],
    function: &FunctionRecord,
) -> Result<(), NoMemory>
    ensures { OnOk result (lines.new ≡ lines.old ++ function_lines files.now function.now) }
{
    lines.push(function_line(alloc, function)?)?;
    for condition in &function.conditions {
        push_condition_lines(alloc, lines, files, condition)?;
    }
    Ok(())
}

/// Returns the lines of a report, each with its line feed. `NoMemory` if memory runs out.
pub fn report_lines(alloc: Global, report: &Report) -> Result<Lines, NoMemory>
    ensures { IfOk result (λ lines. lines ≡ lines_of_report report.now) }
{
    let mut lines = Lines::new(alloc);
    for function in &report.functions {
        push_function_lines(alloc, &mut lines, report.files.as_slice(), function)?;
    }
    lines.push(count_line(alloc, report.functions.as_slice())?)?;
    Ok(lines)
}

/// A law: the printed text determines the verdicts. Two reports with the same text have the same lines, and the same
/// verdict at each line, if no name in them contains a line feed.
pub fn one_reading()
    ensures lines { (one other : ReportData) → IsPrintedReport one → IsPrintedReport other
        → report_text one ≡ report_text other → lines_of_report one ≡ lines_of_report other }
    ensures verdicts { (one other : ReportData) → IsPrintedReport one → IsPrintedReport other
        → report_text one ≡ report_text other → verdicts_of_report one ≡ verdicts_of_report other }
{}

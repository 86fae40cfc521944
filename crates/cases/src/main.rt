//! Prints cases: sources that stand in files, each with what the verifier, or a stage of it, says of them.
//!
//! The file `index` names the files of cases, one on a line; a line that begins with `#` is a title. `case_file` describes
//! such a file, and `kind` what the program prints of a case.
#![tactic(auto)]

mod case_file;
mod clause_lines;
mod code_lines;
mod condition_lines;
mod expression_lines;
mod fault_lines;
mod kind;
mod lines;
mod name_lines;
mod node_words;
mod prefix_lines;
mod reading_lines;
mod report_lines;
mod source_lines;
mod spelled;
mod state_lines;
mod table_lines;
mod token_lines;
mod type_names;
mod typing_lines;

use crate::case_file::{Case, CaseFile};
use crate::kind::answer;
use anyhow::{Context, Result};
use std::alloc::Global;
use std::fs;
use std::rt::Files;

/// Prints a case, and behind it the lines of its answer, each behind four blanks.
fn show_case<R: Print>(rt: &R, alloc: Global, file: &CaseFile, case: &Case) -> Result<()> {
    rt.println(case.title.as_str())?;
    let lines = answer(alloc, file.kind, case)?;
    for line in lines.as_str().lines() {
        println!(rt; "    {line}")?;
    }
    Ok(())
}

/// Prints the cases of a file.
fn show_file<R: Files + Print + Alloc>(rt: &R, alloc: Global, name: &str) -> Result<()> {
    let text = fs::read_to_string(rt, name)?;
    let file = CaseFile::read(alloc, text.as_str())?.context("a file of cases begins with a kind")?;
    println!(rt; "# {name}")?;
    for case in file.cases.iter() {
        show_case(rt, alloc, &file, case)?;
    }
    Ok(())
}

fn main(rt: HostRuntime) -> Result<()> {
    let alloc = rt.alloc();
    let index = fs::read_to_string(&rt, "index")?;
    for line in index.as_str().lines() {
        if !line.is_empty() && !line.starts_with('#') {
            show_file(&rt, alloc, line)?;
        }
    }
    Ok(())
}

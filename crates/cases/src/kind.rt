//! The kinds of cases, each with its word.

use crate::case_file::Case;
use crate::expression_lines::{condition_line, expression_line};
use crate::name_lines::name_lines;
use crate::prefix_lines::prefix_lines;
use crate::reading_lines::reading_lines;
use crate::report_lines::report_lines;
use crate::state_lines::state_lines;
use crate::table_lines::table_lines;
use crate::token_lines::token_lines;
use crate::typing_lines::typing_lines;
use base::memory::NoMemory;
use std::alloc::Global;

/// What the program prints of a case.
#[derive(Clone, Copy, Debug, PartialEq, Eq)]
pub enum Kind {
    /// What the verifier writes, and its status: `report`.
    Report,
    /// What the verifier writes of each beginning of the source, and its status: `prefixes`.
    Prefixes,
    /// The tokens of the source, and how deep they nest: `tokens`.
    Tokens,
    /// The members of the source, with the clauses of its spec blocks, or where its reading ends: `reading`.
    Reading,
    /// The expression that the source begins with, and how many tokens are left: `expression`.
    Expression,
    /// The spec expression that the source is, or where its reading ends: `condition`.
    Condition,
    /// What the names in code and clauses mean: `names`.
    Names,
    /// The types of locals, of constants and of clauses, and which rules on types are broken: `typing`.
    Typing,
    /// The tables of types of a program: `tables`.
    Tables,
    /// The states of locals where they are used: `states`.
    States,
}

impl Kind {
    /// The kind of this word.
    pub fn named(word: &str) -> Option<Kind> {
        match word {
            "report" => Some(Kind::Report),
            "prefixes" => Some(Kind::Prefixes),
            "tokens" => Some(Kind::Tokens),
            "reading" => Some(Kind::Reading),
            "expression" => Some(Kind::Expression),
            "condition" => Some(Kind::Condition),
            "names" => Some(Kind::Names),
            "typing" => Some(Kind::Typing),
            "tables" => Some(Kind::Tables),
            "states" => Some(Kind::States),
            _ => None,
        }
    }
}

/// The text of the first source of a case.
fn first_text(case: &Case) -> &str {
    match case.sources.first() {
        Some(source) => source.text.as_str(),
        None => "",
    }
}

/// The lines that the program prints of a case of this kind.
pub fn answer(alloc: Global, kind: Kind, case: &Case) -> Result<String, NoMemory> {
    match kind {
        Kind::Report => report_lines(alloc, case),
        Kind::Prefixes => prefix_lines(alloc, case),
        Kind::Tokens => token_lines(alloc, first_text(case)),
        Kind::Reading => reading_lines(alloc, first_text(case)),
        Kind::Expression => expression_line(alloc, first_text(case)),
        Kind::Condition => condition_line(alloc, first_text(case)),
        Kind::Names => name_lines(alloc, case.sources.as_slice()),
        Kind::Typing => typing_lines(alloc, case.sources.as_slice()),
        Kind::Tables => table_lines(alloc, case.sources.as_slice()),
        Kind::States => state_lines(alloc, case.sources.as_slice()),
    }
}

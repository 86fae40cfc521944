//! Verdicts, and the report of them.

ghost use Rattle.std.specs.Prelude.{◌≡◌, IfOk};
ghost use Rattle.report.specs.ReportText.{function_line, condition_line, count_line, lines_of_report};

use base::condition::ConditionKind;
use base::lists::Bytes;
use base::memory::NoMemory;
use base::name::Name;
use certificate_text::prover::answer::Answer;
use std::alloc::Global;
use std::marker::Model;

/// The verdict on a condition.
#[derive(Clone, Copy, Debug, PartialEq, Eq)]
pub enum ConditionVerdict {
    /// A closed tableau for the condition was found, and it gives a certificate that the checker accepts.
    Proved,
    /// A tableau for the condition has an open branch on which nothing is due and which nothing closes, and values
    /// satisfy the branch's rows, whole ones for numbers.
    Open,
    /// An elimination of the rows of a branch of a tableau reaches two rows whose sum overflows 128 bits; or the
    /// formula has a numeral from 2^127 on other than 2^128 - 1.
    Wide,
    /// An elimination of the rows of a branch of a tableau reaches 5,000 rows.
    Rows,
    /// A tableau for the condition has this many steps, the whole budget.
    Budget(u64),
    /// No certificate can extend a branch of a tableau; or the certificate found has more than 4 MiB.
    Size,
}

/// The verdict on a function.
#[derive(Clone, Copy, Debug, PartialEq, Eq)]
pub enum FunctionVerdict {
    /// Each of its conditions is proved.
    Proved,
    /// Some condition of it is not proved.
    Unknown,
}

/// The value of a parameter on an open branch.
#[derive(Drop)]
pub struct ParameterValue {
    pub name: Name,
    pub number: i128,
}

impl Model for ParameterValue {
    ghost use Rattle.report.specs.ReportData.{ParameterValueData};

    ghost Value = { ParameterValueData };

    ghost view = { λ v. record { name = v.name; number = v.number } };
}

/// A condition, by its kind and its position, and its verdict.
#[derive(Drop)]
pub struct ConditionRecord {
    pub kind: ConditionKind,
    /// The number of the clause's file, counted from 0 in the order of the report's files.
    pub file: u32,
    /// The line of the clause, or for `aborts` of the function, counted from 1.
    pub line: u32,
    /// The line of the check, if it is apart from the clause.
    pub check_line: Option<u32>,
    pub verdict: ConditionVerdict,
    /// The prover's answer for the condition's formula: the trace of a tableau, over the pool of its formulas, that
    /// shows the verdict.
    pub answer: Answer,
    /// If the verdict is `Open`, the values of the function's parameters on the branch, in order.
    pub values: Vec<ParameterValue>,
}

impl Model for ConditionRecord {
    ghost use Rattle.report.specs.ReportData.{ConditionRecordData};

    ghost Value = { ConditionRecordData };

    ghost view = { λ c. record { kind = c.kind; file = c.file; line = c.line; check_line = c.check_line; verdict = c.verdict; answer = c.answer; values = c.values.items } };
}

/// A function, its verdict, and the verdicts of its conditions in the report's order.
#[derive(Drop)]
pub struct FunctionRecord {
    pub address: u128,
    pub module_name: Name,
    pub name: Name,
    pub verdict: FunctionVerdict,
    pub conditions: Vec<ConditionRecord>,
}

impl Model for FunctionRecord {
    ghost use Rattle.report.specs.ReportData.{FunctionRecordData};

    ghost Value = { FunctionRecordData };

    ghost view = { λ f. record { address = f.address; module_name = f.module_name; name = f.name; verdict = f.verdict; conditions = f.conditions.items } };
}

/// The result of a run.
#[derive(Drop)]
pub struct Report {
    /// The names of the files, in the order of the words that named them.
    pub files: Vec<Name>,
    /// The functions of the files, in their order.
    pub functions: Vec<FunctionRecord>,
}

impl Model for Report {
    ghost use Rattle.report.specs.ReportData.{ReportData};

    ghost Value = { ReportData };

    ghost view = { λ r. record { files = r.files.items; functions = r.functions.items } };
}

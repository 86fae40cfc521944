//! The verification of functions.

pub mod laws;
mod values;

ghost use Rattle.std.specs.Prelude.{◌≡◌, ◌<◌, ◌≤◌, ◌^◌, ℕ, List, [], All, IfOk, OnOk, length, map};
ghost use Rattle.report.specs.Lines.{line_feeds};
ghost use Rattle.report.specs.ReportText.{is_proved};
ghost use Rattle.certificate_text.specs.Answers.{Shows};
ghost use Rattle.base.specs.Pairs.{Paired};
ghost use Rattle.vc_gen.specs.Supposed.{SupposesTypes};
ghost use Rattle.vc_gen.specs.declared.condition.VerificationCondition.{VerificationCondition};
ghost use Rattle.driver.specs.Findings.{HasOneNumber, ValuesAfter, ValuesWith, WholeAfter, WholeWith, verdict_of, verdict_of_end};
ghost use Rattle.driver.specs.Pairs.{ArePutBehind};
ghost use Rattle.driver.specs.Verdicts.{IsShown};
ghost use Rattle.driver.specs.Verified.{AreVerifiable, IsConditionRecord, IsFunctionRecord, IsReportOf, IsVerifiable, are_proved, check_line_of, functions_of, functions_of_module};

use crate::verify::values::values_of;
use base::lists::Bytes;
use base::memory::NoMemory;
use base::name::Name;
use base::steps::Steps;
use certificate_text::prover::answer::{Answer, Search};
use certificate_text::prover::prove;
use fol::formula::Formula;
use fol::shapes::Shapes;
use report::lines::LineFeeds;
use report::outside::FILE_LIMIT;
use report::report::{
    ConditionRecord, ConditionVerdict, FunctionRecord, FunctionVerdict, ParameterValue, Report,
};
use search::end::End;
use std::alloc::Global;
use std::sync::ledger::Ledger;
use strategy::deciders::FormulaDeciders;
use sum_tree::function::{SpecifiedFunction, SumModule};
use vc_gen::condition::VerificationCondition;
use vc_gen::conditions::conditions;

/// The greatest number of search steps for one condition.
const BUDGET: u64 = 20_000;

// The verdict for the end of a search.
fn verdict_of_end(end: &End) -> ConditionVerdict
    ensures { result ≡ verdict_of_end end.now }
{
    match end {
        End::Proved => ConditionVerdict::Proved,
        End::Open(_) => ConditionVerdict::Open,
        End::Spent | End::SpentInChain(_, _) => ConditionVerdict::Budget(BUDGET),
        End::Wide(_, _) => ConditionVerdict::Wide,
        End::TooManyRows(_) => ConditionVerdict::Rows,
        End::Full => ConditionVerdict::Size,
    }
}

// The verdict for an answer of the prover.
fn verdict_of(answer: &Answer) -> ConditionVerdict
    ensures { result ≡ verdict_of answer.now }
{
    match answer {
        Answer::Ended(search) => verdict_of_end(&search.outcome.end),
        Answer::TooLong(_, _) => ConditionVerdict::Size,
        Answer::WideNumeral(_) => ConditionVerdict::Wide,
    }
}

// The values of the parameters after the end of a search: those of an open branch.
fn values_after(
    alloc: Global,
    search: &Search,
    parameters: &[Name],
) -> Result<Vec<ParameterValue>, NoMemory>
    requires few { length parameters.now ≤ 2 ^ 32 }
    requires whole { WholeAfter search.now.pool parameters.now search.now.outcome.end }
    ensures { IfOk result (λ values. ValuesAfter search.now.pool parameters.now search.now.outcome.end values.items) }
{
    match &search.outcome.end {
        End::Open(values) => values_of(alloc, &search.pool, values, parameters),
        _ => Ok(Vec::new(alloc)),
    }
}

// The values of the parameters for an answer of the prover.
fn values_with(
    alloc: Global,
    answer: &Answer,
    parameters: &[Name],
) -> Result<Vec<ParameterValue>, NoMemory>
    requires few { length parameters.now ≤ 2 ^ 32 }
    requires whole { WholeWith parameters.now answer.now }
    ensures { IfOk result (λ values. ValuesWith parameters.now answer.now values.items) }
{
    match answer {
        Answer::Ended(search) => values_after(alloc, search, parameters),
        _ => Ok(Vec::new(alloc)),
    }
}

// Distinct numbers of an answer's pool stand for distinct items.
fn have_one_number(answer: &Answer)
    ensures { HasOneNumber answer.now }
{
    if let Answer::Ended(search) = answer {
        search.pool.one_number();
    }
}

// The prover's answer for a formula without structs.
fn answer_for<L: Ledger>(
    alloc: Global,
    formula: &Formula,
    steps: &mut Steps<L>,
) -> Result<Answer, NoMemory>
    ensures { IfOk result (Shows [] (record { formula = formula.now; budget = 20000 }) steps.old steps.new) }
{
    let shapes = Shapes::new(alloc);
    let mut deciders = FormulaDeciders::new(alloc, &shapes);
    prove(alloc, &mut deciders, formula, BUDGET, steps)
}

/// The result for a condition's formula.
#[derive(Drop)]
struct Finding {
    answer: Answer,
    values: Vec<ParameterValue>,
}

// The result for the formula of a condition of a function with these parameters.
fn finding_of<L: Ledger>(
    alloc: Global,
    formula: &Formula,
    parameters: &[Name],
    steps: &mut Steps<L>,
) -> Result<Finding, NoMemory>
    requires few { length parameters.now ≤ 2 ^ 32 }
    requires typed { SupposesTypes parameters.now formula.now }
    ensures { IfOk result (λ found. IsShown formula.now parameters.now found.answer (verdict_of found.answer) found.values.items) }
{
    let answer = answer_for(alloc, formula, steps)?;
    have_one_number(&answer);
    let values = values_with(alloc, &answer, parameters)?;
    Ok(Finding { answer, values })
}

/// The line of a check that is apart from its clause.
fn check_line(feeds: &LineFeeds, check: Option<u32>) -> Option<u32>
    ensures { (bytes : List ℕ) → feeds.now ≡ line_feeds bytes → result ≡ check_line_of bytes check }
{
    match check {
        Some(offset) => Some(feeds.line(offset)),
        None => None,
    }
}

/// The record of a condition of a function with these parameters, in the file with this number.
fn verify_condition<L: Ledger>(
    alloc: Global,
    feeds: &LineFeeds,
    file: u32,
    parameters: &[Name],
    condition: &VerificationCondition,
    steps: &mut Steps<L>,
) -> Result<ConditionRecord, NoMemory>
    requires few { length parameters.now ≤ 2 ^ 32 }
    requires typed { SupposesTypes parameters.now condition.now.formula }
    ensures { (bytes : List ℕ) → feeds.now ≡ line_feeds bytes → IfOk result (IsConditionRecord bytes file parameters.now condition.now) }
{
    let Finding { answer, values } = finding_of(alloc, &condition.formula, parameters, steps)?;
    Ok(ConditionRecord {
        kind: condition.key.kind,
        file,
        line: feeds.line(condition.key.start),
        check_line: check_line(feeds, condition.key.check),
        verdict: verdict_of(&answer),
        answer,
        values,
    })
}

/// The records of conditions, in order.
fn verify_conditions<L: Ledger>(
    alloc: Global,
    feeds: &LineFeeds,
    file: u32,
    parameters: &[Name],
    conditions: &[VerificationCondition],
    steps: &mut Steps<L>,
) -> Result<Vec<ConditionRecord>, NoMemory>
    requires few { length parameters.now ≤ 2 ^ 32 }
    requires typed { All (λ (c : VerificationCondition). SupposesTypes parameters.now c.formula) conditions.now }
    ensures { (bytes : List ℕ) → feeds.now ≡ line_feeds bytes → IfOk result (λ found. Paired (IsConditionRecord bytes file parameters.now) conditions.now found.items) }
{
    let mut found = Vec::new(alloc);
    for condition in conditions {
        found.push(verify_condition(alloc, feeds, file, parameters, condition, steps)?)?;
    }
    Ok(found)
}

/// Decides whether each condition is proved.
fn are_proved(conditions: &[ConditionRecord]) -> bool
    ensures { result ≡ are_proved conditions.now }
{
    conditions
        .iter()
        .all(|condition| condition.verdict == ConditionVerdict::Proved)
}

/// The verdict on a function, by the records of its conditions.
fn verdict_of_function(conditions: &[ConditionRecord]) -> FunctionVerdict
    ensures { is_proved result ≡ are_proved conditions.now }
{
    if are_proved(conditions) {
        FunctionVerdict::Proved
    } else {
        FunctionVerdict::Unknown
    }
}

/// The record of a function of a module.
fn verify_function<L: Ledger>(
    alloc: Global,
    feeds: &LineFeeds,
    sum_module: &SumModule,
    specified: &SpecifiedFunction,
    steps: &mut Steps<L>,
) -> Result<FunctionRecord, NoMemory>
    requires { IsVerifiable specified.now.function }
    ensures { (bytes : List ℕ) → feeds.now ≡ line_feeds bytes → IfOk result (IsFunctionRecord bytes sum_module.now specified.now) }
{
    let function = &specified.function;
    let claims = conditions(alloc, function, specified.clauses.as_slice())?;
    let found = verify_conditions(
        alloc,
        feeds,
        sum_module.file,
        function.parameters.as_slice(),
        claims.as_slice(),
        steps,
    )?;
    let module_name = sum_module.name.try_clone(alloc)?;
    let name = function.name.try_clone(alloc)?;
    let verdict = verdict_of_function(found.as_slice());
    Ok(FunctionRecord {
        address: sum_module.address,
        module_name,
        name,
        verdict,
        conditions: found,
    })
}

/// Appends the records of a module's functions, in order.
fn verify_module<L: Ledger>(
    alloc: Global,
    feeds: &LineFeeds,
    sum_module: &SumModule,
    records: &mut Vec<FunctionRecord>,
    steps: &mut Steps<L>,
) -> Result<(), NoMemory>
    requires { All (λ f. IsVerifiable f.function) sum_module.now.functions }
    ensures { (bytes : List ℕ) → feeds.now ≡ line_feeds bytes → OnOk result (ArePutBehind (IsFunctionRecord bytes sum_module.now) sum_module.now.functions records.old.items records.new.items) }
{
    for specified in &sum_module.functions {
        records.push(verify_function(alloc, feeds, sum_module, specified, steps)?)?;
    }
    Ok(())
}

/// The line feeds of each file.
fn feeds_of(alloc: Global, files: &[Bytes]) -> Result<Vec<LineFeeds>, NoMemory>
    requires { All (λ bytes. length bytes ≤ FILE_LIMIT) files.now }
    ensures { IfOk result (λ feeds. feeds.items ≡ map line_feeds files.now) }
{
    let mut feeds = Vec::new(alloc);
    for bytes in files {
        feeds.push(LineFeeds::new(alloc, bytes.as_slice())?)?;
    }
    Ok(feeds)
}

/// Returns the report on files with these names and these bytes: on the functions of the program in them. `NoMemory` if
/// memory runs out.
pub fn verify<L: Ledger>(
    alloc: Global,
    names: &[Name],
    files: &[Bytes],
    program: &[SumModule],
    steps: &mut Steps<L>,
) -> Result<Report, NoMemory>
    requires short { All (λ bytes. length bytes ≤ FILE_LIMIT) files.now }
    requires verifiable { AreVerifiable program.now }
    requires placed { All (λ m. m.file < length files.now) program.now }
    ensures { IfOk result (IsReportOf names.now files.now program.now) }
{
    let feeds = feeds_of(alloc, files)?;
    let mut functions = Vec::new(alloc);
    for module in program {
        let feeds = &feeds[module.file as usize];
        verify_module(alloc, feeds, module, &mut functions, steps)?;
    }
    Ok(Report {
        files: copies_of(alloc, names)?,
        functions,
    })
}

/// Copies of names.
fn copies_of(alloc: Global, names: &[Name]) -> Result<Vec<Name>, NoMemory>
    ensures { IfOk result (λ copies. copies.items ≡ names.now) }
{
    let mut copies = Vec::with_capacity(alloc, names.len())?;
    for name in names {
        copies.push(name.try_clone(alloc)?)?;
    }
    Ok(copies)
}

//! The stages of a run before the verification of functions: the words, the fetches, the program.

ghost use Rattle.std.specs.Prelude.{◌≡◌, ◌≤◌, ℕ, [], ◌∷◌, ◌++◌, length, slice_index_or, IfOk, IfErr, MatchOption};
ghost use Rattle.std.specs.List.{AllByRecursion};
ghost use Rattle.report.specs.Provided.{AreProvided};
ghost use Rattle.front_end.specs.Program.{IsProgramOf};
ghost use Rattle.driver.specs.Stages.{FetchStopped, ProvidedTo, HasBytes, HaveBytes, IsFetchStop, NameFiles, ReadStopped, UnlessSourceFault, begins_with_dash, limit_kind, name_files, stop_of};

use base::lists::{Bytes, Words};
use base::memory::NoMemory;
use base::name::Name;
use front_end::fault::{FileFault, FileLimit, ProgramFault};
use front_end::files::read_program;
use report::lines::LineFeeds;
use report::outside::{FILE_LIMIT, Fetched, Sources};
use report::status::{LimitKind, Refusal};
use std::alloc::{AllocFailed, Global};
use sum_tree::function::SumModule;

/// The greatest number of files of a run.
pub const FILES_LIMIT: usize = 64;

/// Why a run has no report.
#[derive(Drop)]
pub enum RunStop {
    /// There are more than 64 files: this many.
    TooManyFiles(u64),
    /// The file with this number could not be fetched.
    SourceFault(u32),
    /// The file with this number exceeds a limit, with the count at which this was noticed.
    Limit(u32, LimitKind, u64),
    /// A file breaks a rule.
    Refused(Refusal),
    /// Memory ran out.
    NoMemory,
}

impl From<NoMemory> for RunStop {
    ghost use Rattle.driver.specs.declared.stages.RunStop.{RunStop};

    ghost from_gives = { λ _ stop. stop ≡ RunStop.NoMemory };

    fn from(_error: NoMemory) -> RunStop {
        RunStop::NoMemory
    }
}

impl<T: Drop> From<AllocFailed<T>> for RunStop {
    ghost use Rattle.driver.specs.declared.stages.RunStop.{RunStop};

    ghost from_gives = { λ _ stop. stop ≡ RunStop.NoMemory };

    fn from(_error: AllocFailed<T>) -> RunStop {
        RunStop::NoMemory
    }
}

/// Decides whether a word is an option.
fn begins_with_dash(word: &Name) -> bool
    ensures { result ≡ begins_with_dash word.now }
{
    match word.as_slice() {
        [b'-', ..] => true,
        _ => false,
    }
}

/// Decides whether no word is an option.
fn are_names(words: &[Name]) -> bool
    ensures { result ≡ name_files words.now }
{
    words.iter().all(|word| !begins_with_dash(word))
}

/// The words as the names of files; `None` if one of them is an option.
pub fn file_names(words: &Words) -> Option<&[Name]>
    ensures { MatchOption result (¬ NameFiles words.now) (λ names. (names.now ≡ words.now) × NameFiles words.now) }
{
    let names = words.as_slice();
    if are_names(names) { Some(names) } else { None }
}

/// The bytes of the file with this name and this number.
fn fetch<S: Sources>(
    alloc: Global,
    number: u32,
    name: &Name,
    sources: &mut S,
) -> Result<Bytes, RunStop>
    ensures same_files { S.holds sources.new ≡ S.holds sources.old }
    ensures bytes { IfOk result (HasBytes (S.holds sources.old) name.now) }
    ensures provided { IfOk result (λ bytes. S.provided sources.new ≡ S.provided sources.old ++ (name.now, bytes) ∷ []) }
    ensures provided_none { IfErr result (λ _. S.provided sources.new ≡ S.provided sources.old) }
    ensures no_fault { UnlessSourceFault result (S.faults sources.new ≡ S.faults sources.old) }
    ensures stopped { IfErr result (IsFetchStop (S.holds sources.old) number name.now (S.faults sources.old) (S.faults sources.new)) }
{
    let mut bytes = Bytes::new(alloc);
    match sources.fetch(name, &mut bytes) {
        Fetched::Whole => Ok(bytes),
        Fetched::Failed => Err(RunStop::SourceFault(number)),
        Fetched::TooLong => Err(RunStop::Limit(number, LimitKind::Bytes, FILE_LIMIT as u64 + 1)),
        Fetched::NoMemory => Err(RunStop::NoMemory),
    }
}

/// Returns the bytes of the files, in the order of the names. An error states which file stopped the run, or that
/// memory ran out.
pub fn fetch_all<S: Sources>(
    alloc: Global,
    names: &[Name],
    sources: &mut S,
) -> Result<Vec<Bytes>, RunStop>
    requires { length names.now ≤ FILES_LIMIT }
    ensures same_files { S.holds sources.new ≡ S.holds sources.old }
    ensures bytes { IfOk result (λ files. HaveBytes (S.holds sources.old) names.now files.items) }
    ensures provided { IfOk result (λ files. AreProvided (S.provided sources.old) (S.provided sources.new) names.now files.items) }
    ensures provided_before { IfErr result (ProvidedTo (S.provided sources.old) (S.provided sources.new) names.now) }
    ensures no_fault { UnlessSourceFault result (S.faults sources.new ≡ S.faults sources.old) }
    ensures stopped { IfErr result (FetchStopped (S.holds sources.old) names.now (S.faults sources.old) (S.faults sources.new)) }
{
    let mut files = Vec::new(alloc);
    for (number, name) in names.iter().enumerate() {
        files.push(fetch(alloc, number as u32, name, sources)?)?;
    }
    Ok(files)
}

/// The limit of a run for a limit of a file.
fn limit_kind(limit: FileLimit) -> LimitKind
    ensures { result ≡ limit_kind limit }
{
    match limit {
        FileLimit::Tokens => LimitKind::Tokens,
        FileLimit::Nesting => LimitKind::Nesting,
        FileLimit::Locals => LimitKind::Locals,
    }
}

/// The bytes of the file with this number; no bytes if there is no such file.
fn bytes_of(files: &[Bytes], file: u32) -> &[u8]
    requires { AllByRecursion (λ bytes. length bytes ≤ FILE_LIMIT) files.now }
    ensures bytes { result.now ≡ slice_index_or files.now file [] }
    ensures short { length result.now ≤ FILE_LIMIT }
{
    match files.get(file as usize) {
        Some(bytes) => bytes.as_slice(),
        None => b"",
    }
}

/// The reason why a run stops for a fault in a file.
fn stop_of(alloc: Global, files: &[Bytes], file: u32, fault: FileFault) -> Result<RunStop, NoMemory>
    requires { AllByRecursion (λ bytes. length bytes ≤ FILE_LIMIT) files.now }
    ensures { IfOk result (λ stop. stop ≡ stop_of files.now file fault) }
{
    match fault {
        FileFault::Breaks(rule, offset, marker) => {
            let line = LineFeeds::new(alloc, bytes_of(files, file))?.line(offset);
            Ok(RunStop::Refused(Refusal {
                rule,
                file,
                line,
                marker,
            }))
        }
        FileFault::Passes(limit, count) => Ok(RunStop::Limit(file, limit_kind(limit), count)),
    }
}

/// Returns the program in the files. An error states which rule or limit a file violates, or that memory ran out.
pub fn program_of(alloc: Global, files: &[Bytes]) -> Result<Vec<SumModule>, RunStop>
    requires few { length files.now ≤ FILES_LIMIT }
    requires short { AllByRecursion (λ bytes. length bytes ≤ FILE_LIMIT) files.now }
    ensures ok { IfOk result (λ program. IsProgramOf files.now program.items) }
    ensures stopped { IfErr result (ReadStopped files.now) }
{
    match read_program(alloc, files) {
        Ok(program) => Ok(program),
        Err(ProgramFault::InFile(file, fault)) => Err(stop_of(alloc, files, file, fault)?),
        Err(ProgramFault::NoMemory) => Err(RunStop::NoMemory),
    }
}

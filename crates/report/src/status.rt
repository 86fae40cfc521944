//! How a run ends.

ghost use Rattle.std.specs.Prelude.{◌≡◌};
ghost use Rattle.report.specs.Status.{code_of, limit_text};

use base::name::Name;
use base::rule::Rule;

/// A file that breaks a rule, with the rule.
#[derive(Drop, PartialEq, Eq)]
pub struct Refusal {
    pub rule: Rule,
    /// The number of the file, counted from 0 in the order of the words.
    pub file: u32,
    /// The line, counted from 1, where the violation begins.
    pub line: u32,
    /// The text of the first marker, if the rule is `LeftOut`.
    pub marker: Option<Name>,
}

/// A device that can fail.
#[derive(Clone, Copy, Debug, PartialEq, Eq)]
pub enum Device {
    Source,
    Sink,
}

/// A quantity that has a limit.
#[derive(Clone, Copy, Debug, PartialEq, Eq)]
pub enum LimitKind {
    /// The files of a run, 64 at most.
    Files,
    /// The bytes of a file, 1,048,576 at most.
    Bytes,
    /// The tokens of a file, 200,000 at most.
    Tokens,
    /// The nesting weight of a file, 200 at most.
    Nesting,
    /// The parameters and locals of a function, 256 at most.
    Locals,
}

/// How a run ended.
#[derive(Drop, PartialEq, Eq)]
pub enum Status {
    /// The report was written, and each function is proved.
    AllProved,
    /// The report was written, and some function is not proved.
    NotAllProved,
    /// A file breaks a rule.
    Refused(Refusal),
    /// A device failed.
    Fault(Device),
    /// The words of the command line are not valid for this program.
    BadWords,
    /// A quantity exceeded its limit, with the count at which this was noticed.
    Limit(LimitKind, u64),
    /// Memory ran out.
    NoMemory,
}

impl LimitKind {
    /// The word for the quantity in the line of a limit.
    pub fn text(self) -> &'static [u8]
        ensures { result.now ≡ limit_text self }
    {
        match self {
            LimitKind::Files => b"files",
            LimitKind::Bytes => b"bytes",
            LimitKind::Tokens => b"tokens",
            LimitKind::Nesting => b"nesting",
            LimitKind::Locals => b"locals",
        }
    }
}

impl Status {
    /// The exit status of the program.
    pub fn code(&self) -> u8
        ensures { result ≡ code_of self.now }
    {
        match self {
            Status::AllProved => 0,
            Status::NotAllProved => 1,
            Status::Refused(_) => 2,
            Status::Fault(_) => 3,
            Status::BadWords => 4,
            Status::Limit(_, _) => 5,
            Status::NoMemory => 6,
        }
    }
}

//! The program of files.

ghost use Rattle.std.specs.Prelude.{◌≡◌, ◌≤◌, ◌<◌, ◌^◌, ℕ, List, length, MatchResult};
ghost use Rattle.std.specs.List.{AllByRecursion};
ghost use Rattle.front_end.specs.FileFault.{IfInFile, IsSameStop};
ghost use Rattle.sum_tree.specs.SumModuleData.{SumModuleData};
ghost use Rattle.front_end.specs.declared.fault.FileFault.{FileFault};
ghost use Rattle.front_end.specs.Program.{IsProgramOf, ProgramStopped};

use crate::fault::ProgramFault;
use crate::front::front;
use crate::modules::read_modules;
use base::lists::Bytes;
use item_parser::source::denoted::one_source;
use resolution::law::one_program;
use std::alloc::Global;
use sum_tree::function::SumModule;
use tokens::scanner::{one_spelling, spelled_or_bad};

/// Reads the program of sums of the bytes of files: the modules of the files in their order.
///
/// # Errors
///
/// Those of `front`, and after them: a module is not one of sums, or one before it has the same address and name, with
/// the first such module. `NoMemory` where memory ran out.
pub fn read_program(alloc: Global, files: &[Bytes]) -> Result<Vec<SumModule>, ProgramFault>
    requires few { length files.now ≤ 2 ^ 32 }
    requires short { AllByRecursion (λ bytes. length bytes < 2 ^ 32) files.now }
    ensures { MatchResult result (λ program. IsProgramOf files.now program.items) (λ fault. IfInFile fault (ProgramStopped files.now)) }
{
    let read = front(alloc, files)?;
    read_modules(alloc, read.sources.as_slice())
}

/// A law: files have at most one program, or reading stops at one file for one reason, up to the offset of a grammar
/// error.
pub fn one_outcome()
    ensures program { (files : List (List ℕ)) (one other : List SumModuleData)
        → IsProgramOf files one → IsProgramOf files other → one ≡ other }
    ensures either { (files : List (List ℕ)) (program : List SumModuleData) (file : ℕ) (fault : FileFault)
        → IsProgramOf files program → ProgramStopped files file fault → ⊥ }
    ensures stop { (files : List (List ℕ)) (file other_file : ℕ) (fault other : FileFault)
        → ProgramStopped files file fault → ProgramStopped files other_file other → IsSameStop file other_file fault other }
{
    one_spelling();
    spelled_or_bad();
    one_source();
    one_program();
}

//! The number of parameters and locals of functions.

ghost use Rattle.std.specs.Prelude.{◌≡◌, ◌≤◌, ◌^◌, length, IfOk, MatchResult};
ghost use Rattle.front_end.specs.FileFault.{IfInFile};
ghost use Rattle.front_end.specs.Numbered.{Each};
ghost use Rattle.front_end.specs.LocalCounts.{HasFewLocals, excess_of, excess_of_form, excess_of_module, local_count, locals_stage, over_limit};

use crate::fault::{FileFault, FileLimit, ProgramFault};
use base::memory::NoMemory;
use std::alloc::Global;
use syntax_tree::member::Function;
use syntax_tree::source::locals::locals_of;
use syntax_tree::source::{Source, SourceForm, SourceModule};

/// The maximal number of parameters and locals of a function.
pub const LOCAL_LIMIT: usize = 256;

/// The number of parameters and locals of a function.
fn local_count(alloc: Global, function: &Function) -> Result<usize, NoMemory>
    ensures { IfOk result (λ count. count ≡ local_count function.now) }
{
    let locals = locals_of(alloc, &function.body)?;
    Ok(function.inputs.items.len() + locals.len())
}

/// The number, if it exceeds the limit.
fn over_limit(count: usize) -> Option<usize>
    ensures { result ≡ over_limit count }
{
    if count > LOCAL_LIMIT {
        Some(count)
    } else {
        None
    }
}

/// The count of a member that is a function, if it exceeds the limit.
fn excess_of_form(alloc: Global, form: &SourceForm) -> Result<Option<usize>, NoMemory>
    ensures { IfOk result (λ excess. excess ≡ excess_of_form form.now) }
{
    match form {
        SourceForm::Function(function) => Ok(over_limit(local_count(alloc, function)?)),
        SourceForm::Use(_) => Ok(None),
        SourceForm::Friend(_) => Ok(None),
        SourceForm::Struct(_) => Ok(None),
        SourceForm::Constant(_) => Ok(None),
        SourceForm::Spec(_) => Ok(None),
    }
}

/// The count of the first function of a module that exceeds the limit.
fn excess_of_module(alloc: Global, source_module: &SourceModule) -> Result<Option<usize>, NoMemory>
    ensures { IfOk result (λ excess. excess ≡ excess_of_module source_module.now) }
{
    for member in &source_module.members {
        if let Some(count) = excess_of_form(alloc, &member.form)? {
            return Ok(Some(count));
        }
    }
    Ok(None)
}

/// The count of the first function of a file that exceeds the limit.
fn excess_of(alloc: Global, modules: &[SourceModule]) -> Result<Option<usize>, NoMemory>
    ensures { IfOk result (λ excess. excess ≡ excess_of modules.now) }
{
    for module in modules {
        if let Some(count) = excess_of_module(alloc, module)? {
            return Ok(Some(count));
        }
    }
    Ok(None)
}

/// Checks that each function has at most 256 parameters and locals.
///
/// # Errors
///
/// The limit of locals if and only if a function has more, with the first such file and function.
pub fn check_locals(alloc: Global, sources: &[Source]) -> Result<(), ProgramFault>
    requires few { length sources.now ≤ 2 ^ 32 }
    ensures { MatchResult result (λ _. Each HasFewLocals 0 sources.now) (λ fault. IfInFile fault (locals_stage.Stops sources.now)) }
{
    for (number, source) in sources.iter().enumerate() {
        if let Some(count) = excess_of(alloc, source.modules.as_slice())? {
            let fault = FileFault::Passes(FileLimit::Locals, count as u64);
            return Err(ProgramFault::InFile(number as u32, fault));
        }
    }
    Ok(())
}

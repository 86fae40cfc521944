//! Reads modules of sums from source trees.

ghost use Rattle.std.specs.Prelude.{MatchResult};
ghost use Rattle.sum_module.specs.Built.{IsUnbuiltAt};
ghost use Rattle.sum_module.specs.Fault.{IfNotBuiltAt};
ghost use Rattle.sum_module.specs.Program.{IsSumModule};

use crate::fault::ModuleFault;
use crate::join::join;
use crate::module::read_module;
use std::alloc::Global;
use sum_tree::function::SumModule;
use syntax_tree::source::SourceModule;

/// Reads a module as a module of sums, in the file with this number.
///
/// # Errors
///
/// `NotBuilt` if and only if the module or a member of it is not of the supported form, with the offset at which the
/// first of these begins.
pub fn read_sum_module(
    alloc: Global,
    file: u32,
    source_module: &SourceModule,
) -> Result<SumModule, ModuleFault>
    ensures { MatchResult result (IsSumModule file source_module.now) (λ fault. IfNotBuiltAt fault (IsUnbuiltAt source_module.now)) }
{
    let built = read_module(alloc, source_module)?;
    Ok(join(alloc, file, built)?)
}

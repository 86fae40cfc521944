//! The modules of sums in files.

ghost use Rattle.std.specs.Prelude.{◌≡◌, ◌≤◌, ◌^◌, ◌++◌, ◌∷◌, [], ℕ, List, length, map, IfOk, MatchResult};
ghost use Rattle.syntax_tree.specs.SourceModuleData.{SourceModuleData};
ghost use Rattle.front_end.specs.FileFault.{IfInFile};
ghost use Rattle.front_end.specs.ModuleReading.{AreRead, IsSetOf, is_in};
ghost use Rattle.front_end.specs.Modules.{AreNoSums, AreSumsOf, HasUnbuilt};

use crate::fault::{FileFault, ProgramFault};
use base::memory::NoMemory;
use base::name::Name;
use base::rule::Rule;
use std::alloc::Global;
use std::collections::BTreeSet;
use sum_module::fault::ModuleFault;
use sum_module::sums::read_sum_module;
use sum_tree::function::SumModule;
use syntax_tree::source::spans::module_span;
use syntax_tree::source::{Source, SourceModule};

/// The modules that have been read, and their addresses and names.
#[derive(Drop)]
struct Found {
    modules: Vec<SumModule>,
    taken: BTreeSet<(u128, Name)>,
}

impl Found {
    /// Returns no modules.
    fn new(alloc: Global) -> Found
        ensures { AreRead [] result.modules.items result.taken }
    {
        Found {
            modules: Vec::new(alloc),
            taken: BTreeSet::new(alloc),
        }
    }

    /// Adds one more module of the file with this number.
    fn add(
        &mut self,
        alloc: Global,
        file: u32,
        source_module: &SourceModule,
    ) -> Result<(), ProgramFault>
        ensures { (before : List (ℕ × SourceModuleData)) → AreRead before self.old.modules.items self.old.taken → MatchResult result (λ _. AreRead (before ++ (file, source_module.now) ∷ []) self.new.modules.items self.new.taken) (λ fault. IfInFile fault (HasUnbuilt (before ++ (file, source_module.now) ∷ []))) }
    {
        let found = match read_sum_module(alloc, file, source_module) {
            Ok(found) => found,
            Err(ModuleFault::NotBuilt(offset)) => {
                let fault = FileFault::breaks(Rule::NotBuilt, offset);
                return Err(ProgramFault::InFile(file, fault));
            }
            Err(ModuleFault::NoMemory) => return Err(ProgramFault::NoMemory),
        };
        let key = (found.address, found.name.try_clone(alloc)?);
        if !self.taken.insert(key)? {
            let fault = FileFault::breaks(Rule::NotBuilt, module_span(source_module).start);
            return Err(ProgramFault::InFile(file, fault));
        }
        self.modules.push(found)?;
        Ok(())
    }

    /// Adds the modules of the file with this number after the others.
    fn add_all(
        &mut self,
        alloc: Global,
        file: u32,
        modules: &[SourceModule],
    ) -> Result<(), ProgramFault>
        ensures { (before : List (ℕ × SourceModuleData)) → AreRead before self.old.modules.items self.old.taken → MatchResult result (λ _. AreRead (before ++ map (λ m. (file, m)) modules.now) self.new.modules.items self.new.taken) (λ fault. IfInFile fault (HasUnbuilt (before ++ map (λ m. (file, m)) modules.now))) }
    {
        for module in modules {
            self.add(alloc, file, module)?;
        }
        Ok(())
    }
}

/// Reads the modules of sums of the files.
///
/// # Errors
///
/// `NotBuilt` if and only if a module is not one of sums, or one before it has the same address and name, with the
/// first such module.
pub fn read_modules(alloc: Global, sources: &[Source]) -> Result<Vec<SumModule>, ProgramFault>
    requires few { length sources.now ≤ 2 ^ 32 }
    ensures { MatchResult result (λ found. AreSumsOf sources.now found.items) (λ fault. IfInFile fault (AreNoSums sources.now)) }
{
    let mut found = Found::new(alloc);
    for (number, source) in sources.iter().enumerate() {
        found.add_all(alloc, number as u32, source.modules.as_slice())?;
    }
    Ok(found.modules)
}

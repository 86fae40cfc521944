//! One entry for each class of formulas.

ghost use Rattle.std.specs.Prelude.{Some, nat_eq, IfOk};
ghost use Rattle.indexmap.specs.IndexMap.{get};
ghost use Rattle.closing_rules.specs.Indexes.{AreKnownEntries, AreEntriesByClass};

use base::memory::NoMemory;
use congruence_closure::branch_classes::BranchClasses;
use indexmap::IndexMap;
use std::alloc::Global;
use tableau::branch::PoolBranch;
use term_pool::numbers::note;

/// One entry for each class that contains an entry's formula.
pub(crate) fn entries_by_class(
    alloc: Global,
    branch: &PoolBranch,
    classes: &BranchClasses,
) -> Result<IndexMap<usize, usize>, NoMemory>
    requires { AreKnownEntries branch.now classes.now }
    ensures { IfOk result (λ by_class. AreEntriesByClass branch.now classes.now (get nat_eq by_class)) }
{
    let mut by_class = IndexMap::new(alloc);
    for i in 0..branch.len() {
        let Some(entry) = branch.entry(i) else {
            continue;
        };
        let class = classes.class(entry.formula);
        note(&mut by_class, class, i)?;
    }
    Ok(by_class)
}

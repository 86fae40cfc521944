//! Rewriting of entries to the same entries with the chosen terms.

ghost use Rattle.std.specs.Prelude.{◌≡◌, ◌<◌, length, nat_eq, MatchOption, OnOk, IfOk};
ghost use Rattle.indexmap.specs.IndexMap.{get};
ghost use Rattle.term_pool.specs.Pools.{Extends};
ghost use Rattle.congruence_closure.specs.Histories.{IsHistory};
ghost use Rattle.tableau.specs.PoolBranches.{branch_in, IsOver};
ghost use Rattle.congruence_closure.specs.Known.{IsOver as AreOver};
ghost use Rattle.row_reasoning.specs.DifferencesSums.{AreChosenSums};
ghost use Rattle.closing_rules.specs.Rewritings.{HaveEntryStandIns, IsRewritingOf, AreRewritings};
ghost use Rattle.closing_rules.specs.Depths.{HasDeep};

use crate::row_closings::cited::is_cited;
use base::memory::NoMemory;
use explanations::derived::replacing::Difference;
use indexmap::IndexMap;
use row_reasoning::differences::choice::Choice;
use row_reasoning::differences::entry::entry_differences;
use std::alloc::Global;
use tableau::branch::PoolBranch;
use term_pool::pool::Pool;

/// The differences between an entry and the same entry with the chosen terms.
#[derive(Drop)]
pub struct Rewriting {
    pub entry: usize,
    pub differences: Vec<Difference>,
}

// The rewriting of the entry with this number; `None` if there are differences and the entry exceeds the maximal depth
// of a formula.
fn rewriting_of(
    alloc: Global,
    pool: &mut Pool,
    branch: &PoolBranch,
    choice: Choice<'_>,
    sums: &mut IndexMap<usize, usize>,
    number: usize,
) -> Result<Option<Rewriting>, NoMemory>
    requires number { number < length branch.now.entries }
    requires over { IsOver pool.old branch.now }
    requires classes { AreOver pool.old choice.classes.now }
    requires history { IsHistory choice.classes.now.classes.links (length choice.classes.now.classes.links) choice.history.now }
    requires chosen { HaveEntryStandIns pool.old branch.now choice.classes.now choice.names.now (get nat_eq choice.chosen.now) }
    requires sums { AreChosenSums pool.old choice.classes.now choice.names.now (get nat_eq choice.chosen.now) (get nat_eq sums.old) }
    ensures extends { Extends pool.old pool.new }
    ensures sums { OnOk result (AreChosenSums pool.new choice.entry.classes.now choice.entry.names.now (get nat_eq choice.entry.chosen.now) (get nat_eq sums.new)) }
    ensures found { IfOk result (λ found. MatchOption found (HasDeep (branch_in pool.old branch.now)) (IsRewritingOf pool.new branch.now choice.entry.classes.now choice.entry.names.now (get nat_eq choice.entry.chosen.now) number)) }
{
    match branch.entry(number) {
        Some(entry) => {
            let found = entry_differences(alloc, pool, choice, sums, entry.formula)?;
            match found {
                Some(differences) => Ok(Some(Rewriting {
                    entry: number,
                    differences,
                })),
                None => Ok(None),
            }
        }
        None => Ok(None),
    }
}

/// The rewritings of the cited entries; `None` if one of them has differences and exceeds the maximal depth of a
/// formula. Sums already computed are kept. `NoMemory` if memory runs out.
pub(crate) fn rewritings(
    alloc: Global,
    pool: &mut Pool,
    branch: &PoolBranch,
    choice: Choice<'_>,
    sums: &mut IndexMap<usize, usize>,
    cited: &[bool],
) -> Result<Option<Vec<Rewriting>>, NoMemory>
    requires over { IsOver pool.old branch.now }
    requires classes { AreOver pool.old choice.classes.now }
    requires history { IsHistory choice.classes.now.classes.links (length choice.classes.now.classes.links) choice.history.now }
    requires chosen { HaveEntryStandIns pool.old branch.now choice.classes.now choice.names.now (get nat_eq choice.chosen.now) }
    requires sums { AreChosenSums pool.old choice.classes.now choice.names.now (get nat_eq choice.chosen.now) (get nat_eq sums.old) }
    ensures extends { Extends pool.old pool.new }
    ensures found { IfOk result (λ found. MatchOption found (HasDeep (branch_in pool.old branch.now)) (λ rewritings. AreRewritings pool.new branch.now choice.entry.classes.now choice.entry.names.now (get nat_eq choice.entry.chosen.now) cited.now rewritings.items (length branch.now.entries))) }
{
    let mut rewritings = Vec::new(alloc);
    for number in 0..branch.len() {
        if !is_cited(cited, number) {
            continue;
        }
        match rewriting_of(alloc, pool, branch, choice, sums, number)? {
            Some(rewriting) => rewritings.push(rewriting)?,
            None => return Ok(None),
        }
    }
    Ok(Some(rewritings))
}

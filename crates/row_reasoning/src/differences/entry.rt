//! The differences between an entry and the same entry with the chosen terms.

ghost use Rattle.std.specs.Prelude.{◌≡◌, length, nat_eq, MatchOption, OnOk, IfOk};
ghost use Rattle.indexmap.specs.IndexMap.{get};
ghost use Rattle.term_pool.specs.Pools.{Extends};
ghost use Rattle.congruence_closure.specs.Histories.{IsHistory};
ghost use Rattle.tableau.specs.PoolBranches.{IsFormulaNumber};
ghost use Rattle.congruence_closure.specs.Known.{IsOver};
ghost use Rattle.row_reasoning.specs.StandIns.{HaveStandIns};
ghost use Rattle.row_reasoning.specs.DifferencesSums.{AreChosenSums};
ghost use Rattle.row_reasoning.specs.DifferencesEntries.{way_to, is_comparison, IsCompared, IsNotCompared, IsComparison, IsNoComparison, IsDeep, AreSidesOf, MakeChosen};

use crate::differences::choice::Choice;
use crate::differences::shape::{Pair, pair_of};
use crate::differences::sums::chosen_sum;
use crate::differences::walk::parts;
use base::memory::NoMemory;
use explanations::derived::replacing::Difference;
use explanations::frame::Frame;
use indexmap::IndexMap;
use std::alloc::Global;
use term_pool::node::{One, Two};
use term_pool::pool::{MOST_DEPTH, Pool};

/// A comparison, or its negation.
#[derive(Clone, Copy)]
pub(crate) struct Sides {
    pub(crate) is_denied: bool,
    pub(crate) pair: Pair,
}

fn is_comparison(head: Two) -> bool
    ensures { result ≡ is_comparison head }
{
    match head {
        Two::Compare(_) => true,
        _ => false,
    }
}

// The head and the sides of the comparison with this number; `None` if it is no comparison.
fn compared(pool: &Pool, number: usize) -> Option<Pair>
    ensures { MatchOption result (IsNotCompared pool.now number) (IsCompared pool.now number) }
{
    match pair_of(pool, number) {
        Some(pair) => {
            if is_comparison(pair.head) {
                Some(pair)
            } else {
                None
            }
        }
        None => None,
    }
}

// The sides of the formula with this number; `None` if it is neither a comparison nor the negation of one.
fn sides_of(pool: &Pool, formula: usize) -> Option<Sides>
    ensures { MatchOption result (IsNoComparison pool.now formula) (IsComparison pool.now formula) }
{
    if let Some(pair) = compared(pool, formula) {
        return Some(Sides {
            is_denied: false,
            pair,
        });
    }
    match pool.denied(formula) {
        Some(part) => match compared(pool, part) {
            Some(pair) => Some(Sides {
                is_denied: true,
                pair,
            }),
            None => None,
        },
        None => None,
    }
}

// The path to the comparison in an entry.
fn way_to(alloc: Global, is_denied: bool) -> Result<Vec<Frame>, NoMemory>
    ensures { IfOk result (λ way. way.items ≡ way_to is_denied) }
{
    let mut way = Vec::new(alloc);
    if is_denied {
        way.push(Frame::Only(One::Not))?;
    }
    Ok(way)
}

// The differences between an entry and the same entry with these sides; no differences if there are some but the entry
// exceeds the maximal depth of a formula.
fn side_differences(
    alloc: Global,
    pool: &Pool,
    choice: Choice<'_>,
    formula: usize,
    one: Sides,
    other: Pair,
) -> Result<Option<Vec<Difference>>, NoMemory>
    requires over { IsOver pool.now choice.classes.now }
    requires history { IsHistory choice.classes.now.classes.links (length choice.classes.now.classes.links) choice.history.now }
    requires sides { AreSidesOf pool.now choice.classes.now choice.names.now (get nat_eq choice.chosen.now) formula one other }
    ensures { IfOk result (λ found. MatchOption found (IsDeep pool.now formula) (λ ds. MakeChosen pool.now choice.entry.classes.now choice.entry.names.now (get nat_eq choice.entry.chosen.now) formula ds.items)) }
{
    let mut found = Vec::new(alloc);
    if one.pair.first == other.first && one.pair.second == other.second {
        return Ok(Some(found));
    }
    if pool.depth(formula) > MOST_DEPTH {
        return Ok(None);
    }
    let way = way_to(alloc, one.is_denied)?;
    parts(
        alloc,
        pool,
        choice,
        way.as_slice(),
        one.pair,
        other,
        &mut found,
    )?;
    Ok(Some(found))
}

// The differences between a comparison, or the negation of one, and the same formula with the chosen terms.
fn comparison_differences(
    alloc: Global,
    pool: &mut Pool,
    choice: Choice<'_>,
    sums: &mut IndexMap<usize, usize>,
    formula: usize,
    one: Sides,
) -> Result<Option<Vec<Difference>>, NoMemory>
    requires over { IsOver pool.old choice.classes.now }
    requires history { IsHistory choice.classes.now.classes.links (length choice.classes.now.classes.links) choice.history.now }
    requires formula { IsFormulaNumber pool.old formula }
    requires comparison { IsComparison pool.old formula one }
    requires chosen { HaveStandIns pool.old choice.classes.now choice.names.now (get nat_eq choice.chosen.now) formula }
    requires sums { AreChosenSums pool.old choice.classes.now choice.names.now (get nat_eq choice.chosen.now) (get nat_eq sums.old) }
    ensures extends { Extends pool.old pool.new }
    ensures sums { OnOk result (AreChosenSums pool.new choice.entry.classes.now choice.entry.names.now (get nat_eq choice.entry.chosen.now) (get nat_eq sums.new)) }
    ensures found { IfOk result (λ found. MatchOption found (IsDeep pool.new formula) (λ ds. MakeChosen pool.new choice.entry.classes.now choice.entry.names.now (get nat_eq choice.entry.chosen.now) formula ds.items)) }
{
    let first = chosen_sum(pool, choice, sums, one.pair.first)?;
    let second = chosen_sum(pool, choice, sums, one.pair.second)?;
    let other = Pair {
        head: one.pair.head,
        first,
        second,
    };
    let found = side_differences(alloc, pool, choice, formula, one, other)?;
    Ok(found)
}

/// Returns the differences between the formula with this number and the same formula with the chosen term for each
/// unknown of its comparison's sides; no differences if there are some but the formula exceeds the maximal depth of a
/// formula. Sums already computed are kept. `NoMemory` if memory runs out.
pub fn entry_differences(
    alloc: Global,
    pool: &mut Pool,
    choice: Choice<'_>,
    sums: &mut IndexMap<usize, usize>,
    formula: usize,
) -> Result<Option<Vec<Difference>>, NoMemory>
    requires over { IsOver pool.old choice.classes.now }
    requires history { IsHistory choice.classes.now.classes.links (length choice.classes.now.classes.links) choice.history.now }
    requires formula { IsFormulaNumber pool.old formula }
    requires chosen { HaveStandIns pool.old choice.classes.now choice.names.now (get nat_eq choice.chosen.now) formula }
    requires sums { AreChosenSums pool.old choice.classes.now choice.names.now (get nat_eq choice.chosen.now) (get nat_eq sums.old) }
    ensures extends { Extends pool.old pool.new }
    ensures sums { OnOk result (AreChosenSums pool.new choice.entry.classes.now choice.entry.names.now (get nat_eq choice.entry.chosen.now) (get nat_eq sums.new)) }
    ensures found { IfOk result (λ found. MatchOption found (IsDeep pool.new formula) (λ ds. MakeChosen pool.new choice.entry.classes.now choice.entry.names.now (get nat_eq choice.entry.chosen.now) formula ds.items)) }
{
    match sides_of(pool, formula) {
        Some(sides) => {
            let found = comparison_differences(alloc, pool, choice, sums, formula, sides)?;
            Ok(found)
        }
        None => Ok(Some(Vec::new(alloc))),
    }
}

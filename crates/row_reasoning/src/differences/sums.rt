//! Terms as sums with the chosen term for each unknown.

ghost use Rattle.std.specs.Prelude.{nat_eq, OnOk, IfOk};
ghost use Rattle.indexmap.specs.IndexMap.{get};
ghost use Rattle.term_pool.specs.Pools.{Extends};
ghost use Rattle.tableau.specs.PoolBranches.{IsTermNumber};
ghost use Rattle.row_reasoning.specs.StandIns.{HaveStandIns};
ghost use Rattle.row_reasoning.specs.DifferencesSums.{IsSumOf, IsChosenSum, AreChosenSums};

use crate::differences::choice::{Choice, chosen_for};
use crate::differences::shape::{Pair, Shape, shape_of};
use base::memory::NoMemory;
use indexmap::IndexMap;
use term_pool::node::Node;
use term_pool::numbers::{look_up, note};
use term_pool::pool::Pool;

// The number of a sum of two terms, with the chosen term for each unknown.
#[cycle(sums)]
fn joined(
    pool: &mut Pool,
    choice: Choice<'_>,
    sums: &mut IndexMap<usize, usize>,
    term: usize,
    pair: Pair,
) -> Result<usize, NoMemory>
    requires sum { IsSumOf pool.old term pair }
    requires term { IsTermNumber pool.old term }
    requires chosen { HaveStandIns pool.old choice.classes.now choice.names.now (get nat_eq choice.chosen.now) term }
    requires sums { AreChosenSums pool.old choice.classes.now choice.names.now (get nat_eq choice.chosen.now) (get nat_eq sums.old) }
    ensures extends { Extends pool.old pool.new }
    ensures sums { OnOk result (AreChosenSums pool.new choice.entry.classes.now choice.entry.names.now (get nat_eq choice.entry.chosen.now) (get nat_eq sums.new)) }
    ensures is { IfOk result (IsChosenSum pool.new choice.entry.classes.now choice.entry.names.now (get nat_eq choice.entry.chosen.now) term) }
{
    let first = chosen_sum(pool, choice, sums, pair.first)?;
    let second = chosen_sum(pool, choice, sums, pair.second)?;
    let number = pool.insert(Node::Two(pair.head, first, second))?;
    Ok(number)
}

// The number, as such a sum, of a term without a kept one.
#[cycle(sums)]
fn new_sum(
    pool: &mut Pool,
    choice: Choice<'_>,
    sums: &mut IndexMap<usize, usize>,
    term: usize,
) -> Result<usize, NoMemory>
    requires term { IsTermNumber pool.old term }
    requires chosen { HaveStandIns pool.old choice.classes.now choice.names.now (get nat_eq choice.chosen.now) term }
    requires sums { AreChosenSums pool.old choice.classes.now choice.names.now (get nat_eq choice.chosen.now) (get nat_eq sums.old) }
    ensures extends { Extends pool.old pool.new }
    ensures sums { OnOk result (AreChosenSums pool.new choice.entry.classes.now choice.entry.names.now (get nat_eq choice.entry.chosen.now) (get nat_eq sums.new)) }
    ensures is { IfOk result (IsChosenSum pool.new choice.entry.classes.now choice.entry.names.now (get nat_eq choice.entry.chosen.now) term) }
{
    match shape_of(pool, term) {
        Shape::Unknown => Ok(chosen_for(choice, term)),
        Shape::Numeral => Ok(term),
        Shape::Sum(pair) => joined(pool, choice, sums, term, pair),
    }
}

/// Returns the number of a term as a sum with the chosen term for each unknown. The results are kept, so that each term
/// is taken apart once. `NoMemory` if memory runs out.
#[cycle(sums)]
pub(crate) fn chosen_sum(
    pool: &mut Pool,
    choice: Choice<'_>,
    sums: &mut IndexMap<usize, usize>,
    term: usize,
) -> Result<usize, NoMemory>
    requires term { IsTermNumber pool.old term }
    requires chosen { HaveStandIns pool.old choice.classes.now choice.names.now (get nat_eq choice.chosen.now) term }
    requires sums { AreChosenSums pool.old choice.classes.now choice.names.now (get nat_eq choice.chosen.now) (get nat_eq sums.old) }
    ensures extends { Extends pool.old pool.new }
    ensures sums { OnOk result (AreChosenSums pool.new choice.entry.classes.now choice.entry.names.now (get nat_eq choice.entry.chosen.now) (get nat_eq sums.new)) }
    ensures is { IfOk result (IsChosenSum pool.new choice.entry.classes.now choice.entry.names.now (get nat_eq choice.entry.chosen.now) term) }
{
    match look_up(sums, term) {
        Some(known) => Ok(known),
        None => {
            let number = new_sum(pool, choice, sums, term)?;
            note(sums, term, number)?;
            Ok(number)
        }
    }
}

//! The differences between two sums, where the second has the chosen term for each unknown of the first.

ghost use Rattle.std.specs.Prelude.{◌≡◌, ◌∷◌, ◌++◌, [], length, nat_eq, OnOk, IfOk};
ghost use Rattle.indexmap.specs.IndexMap.{get};
ghost use Rattle.term_pool.specs.Pools.{item_at};
ghost use Rattle.congruence_closure.specs.Histories.{IsHistory};
ghost use Rattle.congruence_closure.specs.Known.{IsOver};
ghost use Rattle.explanations.specs.Frames.{filled};
ghost use Rattle.row_reasoning.specs.StandIns.{IsStandIn};
ghost use Rattle.row_reasoning.specs.DifferencesSums.{IsChosenSum};
ghost use Rattle.row_reasoning.specs.Positions.{pair_item, IsSumPosition, AreSidesAt, IsTurn, AreFoundAt};

use crate::differences::choice::Choice;
use crate::differences::shape::{Pair, Shape, pair_of, shape_of};
use base::memory::NoMemory;
use congruence_closure::forest_paths::{Span, path};
use explanations::derived::replacing::Difference;
use explanations::frame::Frame;
use std::alloc::Global;
use term_pool::pool::Pool;

/// How two terms at one position are compared.
#[derive(Clone, Copy)]
pub(crate) enum Turn {
    /// The terms are the same: no difference.
    Same,
    /// The first term is an unknown, and the second is the one chosen for it.
    Unknown,
    /// Both terms have this head, with these parts.
    Parts(Pair, Pair),
}

// The path with one more head.
fn longer(alloc: Global, way: &[Frame], frame: Frame) -> Result<Vec<Frame>, NoMemory>
    ensures { IfOk result (λ longer. longer.items ≡ way.now ++ frame ∷ []) }
{
    let mut longer = Vec::new(alloc);
    for head in way {
        longer.push(*head)?;
    }
    longer.push(frame)?;
    Ok(longer)
}

// Appends the difference between an unknown and the term chosen for it.
fn push_unknown(
    alloc: Global,
    pool: &Pool,
    choice: Choice<'_>,
    way: Vec<Frame>,
    one: usize,
    other: usize,
    found: &mut Vec<Difference>,
) -> Result<(), NoMemory>
    requires over { IsOver pool.now choice.classes.now }
    requires history { IsHistory choice.classes.now.classes.links (length choice.classes.now.classes.links) choice.history.now }
    requires position { IsSumPosition pool.now choice.classes.now choice.names.now (get nat_eq choice.chosen.now) way.items one other }
    requires unknown { IsStandIn pool.now choice.classes.now choice.names.now (get nat_eq choice.chosen.now) one other }
    ensures { OnOk result (AreFoundAt pool.now choice.entry.classes.now (filled pool.now way.items (item_at pool.now one)) (filled pool.now way.items (item_at pool.now other)) found.old.items found.new.items) }
{
    let _pool = pool;
    let from = choice.classes.node(one);
    let to = choice.classes.node(other);
    let links = choice.classes.links();
    let span = Span {
        from,
        to,
        before: links.len(),
    };
    let route = path(alloc, choice.history, links, span)?;
    found.push(Difference {
        way,
        from,
        to,
        route,
    })?;
    Ok(())
}

// Decides how two terms at one position are compared.
fn turn_at(pool: &Pool, choice: Choice<'_>, one: usize, other: usize) -> Turn
    requires { IsChosenSum pool.now choice.classes.now choice.names.now (get nat_eq choice.chosen.now) one other }
    ensures { IsTurn pool.now choice.entry.classes.now choice.entry.names.now (get nat_eq choice.entry.chosen.now) one other result }
{
    let _choice = choice;
    if one == other {
        return Turn::Same;
    }
    match shape_of(pool, one) {
        Shape::Unknown => Turn::Unknown,
        Shape::Numeral => Turn::Same,
        Shape::Sum(pair) => match pair_of(pool, other) {
            Some(others) => Turn::Parts(pair, others),
            None => Turn::Same,
        },
    }
}

/// Appends the differences between the parts of two terms with one head at the end of a path. The second parts are
/// compared with the first parts already replaced. `NoMemory` if memory runs out.
#[cycle(differences)]
pub(crate) fn parts(
    alloc: Global,
    pool: &Pool,
    choice: Choice<'_>,
    way: &[Frame],
    one: Pair,
    other: Pair,
    found: &mut Vec<Difference>,
) -> Result<(), NoMemory>
    requires over { IsOver pool.now choice.classes.now }
    requires history { IsHistory choice.classes.now.classes.links (length choice.classes.now.classes.links) choice.history.now }
    requires sides { AreSidesAt pool.now choice.classes.now choice.names.now (get nat_eq choice.chosen.now) way.now one other }
    ensures { OnOk result (AreFoundAt pool.now choice.entry.classes.now (filled pool.now way.now (pair_item pool.now one.head one.first one.second)) (filled pool.now way.now (pair_item pool.now one.head other.first other.second)) found.old.items found.new.items) }
{
    let first = longer(alloc, way, Frame::FirstOfTwo(one.head, one.second))?;
    differences(alloc, pool, choice, first, one.first, other.first, found)?;
    let second = longer(alloc, way, Frame::SecondOfTwo(one.head, other.first))?;
    differences(alloc, pool, choice, second, one.second, other.second, found)?;
    Ok(())
}

// Appends the differences between two terms at the end of a path.
#[cycle(differences)]
fn differences(
    alloc: Global,
    pool: &Pool,
    choice: Choice<'_>,
    way: Vec<Frame>,
    one: usize,
    other: usize,
    found: &mut Vec<Difference>,
) -> Result<(), NoMemory>
    requires over { IsOver pool.now choice.classes.now }
    requires history { IsHistory choice.classes.now.classes.links (length choice.classes.now.classes.links) choice.history.now }
    requires position { IsSumPosition pool.now choice.classes.now choice.names.now (get nat_eq choice.chosen.now) way.items one other }
    ensures { OnOk result (AreFoundAt pool.now choice.entry.classes.now (filled pool.now way.items (item_at pool.now one)) (filled pool.now way.items (item_at pool.now other)) found.old.items found.new.items) }
{
    match turn_at(pool, choice, one, other) {
        Turn::Same => Ok(()),
        Turn::Unknown => {
            push_unknown(alloc, pool, choice, way, one, other, found)?;
            Ok(())
        }
        Turn::Parts(pair, others) => {
            parts(alloc, pool, choice, way.as_slice(), pair, others, found)?;
            Ok(())
        }
    }
}

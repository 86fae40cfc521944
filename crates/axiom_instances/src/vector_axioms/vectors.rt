//! The instances that pairs of vectors trigger.

ghost use Rattle.std.specs.Prelude.{[], ◌∷◌, IfOk};
ghost use Rattle.term_pool.specs.Pools.{Extends};
ghost use Rattle.axiom_instances.specs.Lists.{Adds, ListsAll};
ghost use Rattle.axiom_instances.specs.Numbers.{IsTermNumber, IsVector, term_at, type_at};
ghost use Rattle.axiom_instances.specs.StructRows.{AddsAll};
ghost use Rattle.axiom_instances.specs.VectorRows.{AsksOfPair, same_items_row};

use crate::reading::vector_items;
use crate::triggered::{Row, TriggeredAxiom, TriggeredList, TriggeredTerms, ask};
use crate::vector_axioms::fresh::least_fresh;
use crate::vector_axioms::nodes::{
    all_of, any_of, at, at_most, equal, exists, len, more, no_formulas, no_triggers, not, number,
    typed, variable,
};
use axioms::axiom::{Alternative, Axiom};
use base::memory::NoMemory;
use std::alloc::Global;
use term_pool::pool::Pool;

// Adds the instance for two vectors of items of a type, with this variable as the index.
fn ask_same_items(
    pool: &mut Pool,
    list: &mut TriggeredList,
    of: usize,
    items: usize,
    vector: usize,
    other: usize,
    position: u32,
) -> Result<(), NoMemory>
    requires of { IsVector pool.old of items }
    requires vector { IsTermNumber pool.old vector }
    requires other { IsTermNumber pool.old other }
    ensures extends { Extends pool.old pool.new }
    ensures adds { IfOk result (λ u. Adds pool.old pool.new list.old.items.items list.new.items.items (same_items_row (type_at pool.old items) (term_at pool.old vector) (term_at pool.old other) position ∷ [])) }
{
    let rows = [Row {
        name: Axiom::Cases(Alternative::SameItems),
        position: 33,
    }];
    let nodes = [
        typed!(0, 1),
        not!(3),
        typed!(0, 2),
        not!(5),
        equal!(1, 2),
        len!(1),
        len!(2),
        equal!(8, 9),
        not!(10),
        variable!(position),
        number!(0),
        at_most!(13, 12),
        at_most!(8, 12),
        not!(15),
        at!(1, 12),
        at!(2, 12),
        equal!(17, 18),
        not!(19),
        no_formulas!(),
        more!(20, 21),
        more!(16, 22),
        more!(14, 23),
        all_of!(24),
        no_triggers!(),
        exists!(position, 26, 25),
        more!(27, 21),
        more!(11, 28),
        more!(7, 29),
        more!(6, 30),
        more!(4, 31),
        any_of!(32),
    ];
    ask(
        pool,
        list,
        TriggeredTerms::Two(vector, other),
        &[of, vector, other],
        &nodes,
        &rows,
    )
}

// Adds the instance for two terms that differ and have the type, if that is a vector type.
fn ask_pair(
    pool: &mut Pool,
    list: &mut TriggeredList,
    of: usize,
    vector: usize,
    other: usize,
) -> Result<(), NoMemory>
    requires vector { IsTermNumber pool.old vector }
    requires other { IsTermNumber pool.old other }
    ensures extends { Extends pool.old pool.new }
    ensures adds { IfOk result (λ u. AddsAll pool.old pool.new list.old.items.items list.new.items.items (AsksOfPair (type_at pool.old of) (term_at pool.old vector) (term_at pool.old other))) }
{
    let Some(items) = vector_items(pool, of) else {
        return Ok(());
    };
    let Some(position) = least_fresh(list.alloc, pool, vector, other)? else {
        return Ok(());
    };
    ask_same_items(pool, list, of, items, vector, other, position)?;
    Ok(())
}

/// Returns the instances that two terms trigger when an entry states that they differ, and entries give this type to
/// both, or deny it; none if each 32-bit number is that of a variable that is free in a term.
pub fn axioms_of_vectors(
    alloc: Global,
    pool: &mut Pool,
    of: usize,
    vector: usize,
    other: usize,
) -> Result<Vec<TriggeredAxiom>, NoMemory>
    requires vector { IsTermNumber pool.old vector }
    requires other { IsTermNumber pool.old other }
    ensures extends { Extends pool.old pool.new }
    ensures all { IfOk result (λ found. ListsAll pool.new found.items (AsksOfPair (type_at pool.old of) (term_at pool.old vector) (term_at pool.old other))) }
{
    let mut list = TriggeredList {
        alloc,
        items: Vec::new(alloc),
    };
    ask_pair(pool, &mut list, of, vector, other)?;
    Ok(list.items)
}

//! The instances that field updates trigger, under the shapes of structs.

ghost use Rattle.std.specs.Prelude.{IfOk};
ghost use Rattle.term_pool.specs.Pools.{Extends};
ghost use Rattle.axiom_instances.specs.Asks.{AsksOfTerm};
ghost use Rattle.axiom_instances.specs.Lists.{Adds, ListsAll};
ghost use Rattle.axiom_instances.specs.Numbers.{term_at, type_at};
ghost use Rattle.axiom_instances.specs.StructRows.{HasFewFields, AddsAll};
ghost use Rattle.axiom_instances.specs.SetFieldRows.{IsReplacement, other_rows, set_field_rows};

use crate::struct_axioms::nodes::{any_of, equal, field, more, no_formulas, not, typed};
use crate::structs::field_count;
use crate::triggered::{Row, TriggeredAxiom, TriggeredList, TriggeredTerms, ask};
use axioms::axiom::{Axiom, StructAxiom};
use base::memory::NoMemory;
use fol::shapes::Shapes;
use std::alloc::Global;
use term_pool::pool::Pool;

/// A field update, by number.
#[derive(Clone, Copy)]
pub struct Replacement {
    pub term: usize,
    /// The number of the field in its struct.
    pub field: u32,
    /// The type of the struct.
    pub of: usize,
    /// The struct before the update.
    pub before: usize,
    /// The new value of the field.
    pub value: usize,
}

// Adds the instance for a field other than the replaced one.
fn ask_other_field(
    pool: &mut Pool,
    list: &mut TriggeredList,
    set: Replacement,
    other: u32,
) -> Result<(), NoMemory>
    requires { IsReplacement pool.old set }
    ensures extends { Extends pool.old pool.new }
    ensures adds { IfOk result (λ u. Adds pool.old pool.new list.old.items.items list.new.items.items (other_rows (type_at pool.old set.of) set.field (term_at pool.old set.before) (term_at pool.old set.value) other)) }
{
    if other == set.field {
        return Ok(());
    }
    let rows = [Row {
        name: Axiom::OfStruct(StructAxiom::FieldOfOther),
        position: 5,
    }];
    let nodes = [field!(other, 1, 0), field!(other, 1, 2), equal!(3, 4)];
    ask(
        pool,
        list,
        TriggeredTerms::One(set.term),
        &[set.term, set.of, set.before],
        &nodes,
        &rows,
    )
}

// Adds the instances for each of this many fields.
fn ask_set_fields(
    pool: &mut Pool,
    list: &mut TriggeredList,
    set: Replacement,
    count: u32,
) -> Result<(), NoMemory>
    requires { IsReplacement pool.old set }
    ensures extends { Extends pool.old pool.new }
    ensures adds { IfOk result (λ u. Adds pool.old pool.new list.old.items.items list.new.items.items (set_field_rows (type_at pool.old set.of) set.field (term_at pool.old set.before) (term_at pool.old set.value) count)) }
{
    let rows = [Row {
        name: Axiom::OfStruct(StructAxiom::FieldSet),
        position: 11,
    }];
    let nodes = [
        typed!(1, 2),
        not!(4),
        field!(set.field, 1, 0),
        equal!(6, 3),
        no_formulas!(),
        more!(7, 8),
        more!(5, 9),
        any_of!(10),
    ];
    ask(
        pool,
        list,
        TriggeredTerms::One(set.term),
        &[set.term, set.of, set.before, set.value],
        &nodes,
        &rows,
    )?;
    for other in 0..count {
        ask_other_field(pool, list, set, other)?;
    }
    Ok(())
}

// Adds the instances if the struct has the field.
fn ask_set_field(
    pool: &mut Pool,
    list: &mut TriggeredList,
    shapes: &Shapes,
    set: Replacement,
) -> Result<(), NoMemory>
    requires few { HasFewFields shapes.now }
    requires term { IsReplacement pool.old set }
    ensures extends { Extends pool.old pool.new }
    ensures adds { IfOk result (λ u. AddsAll pool.old pool.new list.old.items.items list.new.items.items (AsksOfTerm shapes.now (term_at pool.old set.term))) }
{
    match field_count(list.alloc, pool, shapes, set.of)? {
        Some(count) => {
            if set.field < count {
                ask_set_fields(pool, list, set, count)?;
                Ok(())
            } else {
                Ok(())
            }
        }
        None => Ok(()),
    }
}

/// The instances that a field update triggers, under the shapes of structs, each of which has fewer than 2^32 fields.
pub fn axioms_of_set_field(
    alloc: Global,
    pool: &mut Pool,
    shapes: &Shapes,
    set: Replacement,
) -> Result<Vec<TriggeredAxiom>, NoMemory>
    requires few { HasFewFields shapes.now }
    requires term { IsReplacement pool.old set }
    ensures extends { Extends pool.old pool.new }
    ensures all { IfOk result (λ found. ListsAll pool.new found.items (AsksOfTerm shapes.now (term_at pool.old set.term))) }
{
    let mut list = TriggeredList {
        alloc,
        items: Vec::new(alloc),
    };
    ask_set_field(pool, &mut list, shapes, set)?;
    Ok(list.items)
}

//! The instances of the axiom on the types of the fields of a struct.

ghost use Rattle.std.specs.Prelude.{◌<◌, ◌^◌, length, IfOk};
ghost use Rattle.term_pool.specs.Pools.{Extends};
ghost use Rattle.axiom_instances.specs.Lists.{Adds, ListsAll};
ghost use Rattle.axiom_instances.specs.Numbers.{IsTermNumber, IsTypeNumber, term_at, type_at};
ghost use Rattle.axiom_instances.specs.StructRows.{HasFewFields, AddsAll, upto};
ghost use Rattle.axiom_instances.specs.FieldTypedRows.{IsFound, AreFound, found_rows, typed_rows, AsksFieldTyped};

use crate::field_types::fields::field_types;
use crate::triggered::{Row, TriggeredAxiom, TriggeredList, TriggeredTerms, ask};
use axioms::axiom::{Axiom, StructAxiom};
use base::memory::NoMemory;
use fol::operators::Connective;
use fol::shapes::Shapes;
use std::alloc::Global;
use term_pool::node::{Node, Two};
use term_pool::pool::Pool;

// Adds the instance for a field, if its type is found.
fn ask_field_type(
    pool: &mut Pool,
    list: &mut TriggeredList,
    of: usize,
    term: usize,
    field: u32,
    found: Option<usize>,
) -> Result<(), NoMemory>
    requires of { IsTypeNumber pool.old of }
    requires term { IsTermNumber pool.old term }
    requires found { IsFound pool.old found }
    ensures extends { Extends pool.old pool.new }
    ensures adds { IfOk result (λ u. Adds pool.old pool.new list.old.items.items list.new.items.items (found_rows pool.old (type_at pool.old of) (term_at pool.old term) field found)) }
{
    match found {
        Some(to) => {
            let rows = [Row {
                name: Axiom::OfStruct(StructAxiom::FieldTyped),
                position: 6,
            }];
            let nodes = [
                Node::Two(Two::Is, 1, 0),
                Node::Two(Two::Field(field), 1, 0),
                Node::Two(Two::Is, 2, 4),
                Node::Two(Two::Connect(Connective::Implies), 3, 5),
            ];
            ask(
                pool,
                list,
                TriggeredTerms::One(term),
                &[term, of, to],
                &nodes,
                &rows,
            )
        }
        None => Ok(()),
    }
}

// Adds the instances for each of the fields.
fn ask_field_types(
    pool: &mut Pool,
    list: &mut TriggeredList,
    of: usize,
    term: usize,
    types: &[Option<usize>],
) -> Result<(), NoMemory>
    requires of { IsTypeNumber pool.old of }
    requires term { IsTermNumber pool.old term }
    requires found { AreFound pool.old types.now }
    requires few { length types.now < 2 ^ 32 }
    ensures extends { Extends pool.old pool.new }
    ensures adds { IfOk result (λ u. Adds pool.old pool.new list.old.items.items list.new.items.items (upto (typed_rows pool.old (type_at pool.old of) (term_at pool.old term) types.now) (length types.now))) }
{
    let count = types.len() as u32;
    for field in 0..count {
        let found = types[field as usize];
        ask_field_type(pool, list, of, term, field, found)?;
    }
    Ok(())
}

/// Adds at the end the instances of this axiom that a type and a term trigger.
pub(crate) fn ask_typed_fields(
    pool: &mut Pool,
    list: &mut TriggeredList,
    shapes: &Shapes,
    of: usize,
    term: usize,
) -> Result<(), NoMemory>
    requires few { HasFewFields shapes.now }
    requires of { IsTypeNumber pool.old of }
    requires term { IsTermNumber pool.old term }
    ensures extends { Extends pool.old pool.new }
    ensures adds { IfOk result (λ u. AddsAll pool.old pool.new list.old.items.items list.new.items.items (AsksFieldTyped shapes.now (type_at pool.old of) (term_at pool.old term))) }
{
    match field_types(list.alloc, pool, shapes, of)? {
        Some(types) => {
            ask_field_types(pool, list, of, term, types.as_slice())?;
            Ok(())
        }
        None => Ok(()),
    }
}

/// The instances of the axiom on the types of fields that a type and a term trigger together, under the shapes of
/// structs, each of which has fewer than 2^32 fields.
pub fn axioms_of_field_types(
    alloc: Global,
    pool: &mut Pool,
    shapes: &Shapes,
    of: usize,
    term: usize,
) -> Result<Vec<TriggeredAxiom>, NoMemory>
    requires few { HasFewFields shapes.now }
    requires of { IsTypeNumber pool.old of }
    requires term { IsTermNumber pool.old term }
    ensures extends { Extends pool.old pool.new }
    ensures all { IfOk result (λ found. ListsAll pool.new found.items (AsksFieldTyped shapes.now (type_at pool.old of) (term_at pool.old term))) }
{
    let mut list = TriggeredList {
        alloc,
        items: Vec::new(alloc),
    };
    ask_typed_fields(pool, &mut list, shapes, of, term)?;
    Ok(list.items)
}

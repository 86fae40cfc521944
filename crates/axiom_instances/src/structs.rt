//! The instances that packs trigger, under the shapes of structs.

ghost use Rattle.std.specs.Prelude.{◌≡◌, length, map, IfOk, MatchOption};
ghost use Rattle.fol.specs.FormulaData.{NoTerms, list_of_terms};
ghost use Rattle.axioms.specs.Fields.{HasFields};
ghost use Rattle.term_pool.specs.Items.{TermItem};
ghost use Rattle.term_pool.specs.Pools.{Extends};
ghost use Rattle.axiom_instances.specs.Asks.{AsksOfTerm};
ghost use Rattle.axiom_instances.specs.Lists.{Adds};
ghost use Rattle.axiom_instances.specs.Numbers.{IsPack, term_at, terms_at, type_at};
ghost use Rattle.axiom_instances.specs.StructRows.{HasFewFields, HasNoFields, IsNextPart, AddsAll, upto, field_rows};
ghost use Rattle.axiom_instances.specs.Templates.{AreItems};

use crate::nodes::{equal, field};
use crate::triggered::{Row, TriggeredList, TriggeredTerms, ask};
use axioms::axiom::{Axiom, StructAxiom};
use axioms::fields::{items, struct_shape};
use base::memory::NoMemory;
use fol::shapes::Shapes;
use std::alloc::Global;
use term_pool::node::{Node, Two};
use term_pool::pool::Pool;
use term_pool::reading::read_type;

/// The number of fields of a struct type, under the shapes of structs, each of which has fewer than 2^32 fields. None
/// if the type has no shape.
pub fn field_count(
    alloc: Global,
    pool: &Pool,
    shapes: &Shapes,
    of: usize,
) -> Result<Option<u32>, NoMemory>
    requires { HasFewFields shapes.now }
    ensures { IfOk result (λ found. MatchOption found (HasNoFields shapes.now (type_at pool.now of)) (HasFields shapes.now (type_at pool.now of))) }
{
    let of = read_type(alloc, pool, of)?;
    match struct_shape(shapes, &of) {
        Some(shape) => Ok(Some(items(&shape.fields).len() as u32)),
        None => Ok(None),
    }
}

// The first of a list of terms and the rest.
fn next_part(pool: &Pool, list: usize) -> Option<(usize, usize)>
    ensures { MatchOption result (terms_at pool.now list ≡ NoTerms) (IsNextPart pool.now list) }
{
    match pool.node(list) {
        Some(Node::Two(Two::ConsTerm, first, rest)) => Some((first, rest)),
        _ => None,
    }
}

// The numbers of the terms of a list.
fn part_numbers(alloc: Global, pool: &Pool, parts: usize) -> Result<Vec<usize>, NoMemory>
    ensures { IfOk result (λ numbers. AreItems pool.now numbers.items (map TermItem (list_of_terms (terms_at pool.now parts)))) }
{
    let mut numbers = Vec::new(alloc);
    let mut list = parts;
    while let Some((first, rest)) = next_part(pool, list) {
        numbers.push(first)?;
        list = rest;
    }
    Ok(numbers)
}

fn ask_fields(
    pool: &mut Pool,
    list: &mut TriggeredList,
    term: usize,
    of: usize,
    parts: usize,
    numbers: &[usize],
    count: u32,
) -> Result<(), NoMemory>
    requires term { IsPack pool.old term of parts }
    requires numbers { AreItems pool.old numbers.now (map TermItem (list_of_terms (terms_at pool.old parts))) }
    requires count { count ≡ length numbers.now }
    ensures extends { Extends pool.old pool.new }
    ensures adds { IfOk result (λ u. Adds pool.old pool.new list.old.items.items list.new.items.items (upto (field_rows (type_at pool.old of) (term_at pool.old term) (list_of_terms (terms_at pool.old parts))) count)) }
{
    let rows = [Row {
        name: Axiom::OfStruct(StructAxiom::FieldOfPack),
        position: 4,
    }];
    for k in 0..count {
        let given = [term, of, numbers[k as usize]];
        ask(
            pool,
            list,
            TriggeredTerms::One(term),
            &given,
            &[field!(k, 1, 0), equal!(3, 2)],
            &rows,
        )?;
    }
    Ok(())
}

/// Adds at the end the instances that a pack triggers.
pub(crate) fn ask_pack(
    pool: &mut Pool,
    list: &mut TriggeredList,
    shapes: &Shapes,
    term: usize,
    of: usize,
    parts: usize,
) -> Result<(), NoMemory>
    requires few { HasFewFields shapes.now }
    requires term { IsPack pool.old term of parts }
    ensures extends { Extends pool.old pool.new }
    ensures adds { IfOk result (λ u. AddsAll pool.old pool.new list.old.items.items list.new.items.items (AsksOfTerm shapes.now (term_at pool.old term))) }
{
    let numbers = part_numbers(list.alloc, pool, parts)?;
    match field_count(list.alloc, pool, shapes, of)? {
        Some(count) => {
            if count as usize == numbers.len() {
                ask_fields(pool, list, term, of, parts, &numbers, count)?;
                Ok(())
            } else {
                Ok(())
            }
        }
        None => Ok(()),
    }
}

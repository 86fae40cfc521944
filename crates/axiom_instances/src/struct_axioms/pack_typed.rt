//! The instances of the axiom on the types of the parts of a pack.

ghost use Rattle.std.specs.Prelude.{◌≡◌, [], ◌∷◌, length, map, IfOk, MatchOption};
ghost use Rattle.fol.specs.FormulaData.{NoTerms, list_of_terms};
ghost use Rattle.term_pool.specs.Items.{FormulasItem, TermItem, formulas_in};
ghost use Rattle.term_pool.specs.Pools.{item_at, IsItem, Extends};
ghost use Rattle.axiom_instances.specs.Lists.{Adds};
ghost use Rattle.axiom_instances.specs.Numbers.{IsPack, IsTermNumber, IsTypeNumber, term_at, terms_at, type_at};
ghost use Rattle.axiom_instances.specs.StructRows.{IsNextPart, AddsAll};
ghost use Rattle.axiom_instances.specs.Templates.{AreItems};
ghost use Rattle.axiom_instances.specs.FieldTypedRows.{AreFound};
ghost use Rattle.axiom_instances.specs.PackTypedRows.{AsksPackTyped, IsNoPack, AreTermNumbers, LacksType, IsTypedList, pack_typed_row};

use crate::field_types::fields::field_types;
use crate::reading::{TermForm, term_form};
use crate::triggered::{Row, TriggeredList, TriggeredTerms, ask};
use axioms::axiom::{Axiom, StructAxiom};
use base::memory::NoMemory;
use fol::operators::{Connective, Junction};
use fol::shapes::Shapes;
use std::alloc::Global;
use term_pool::node::{Leaf, Node, One, Two};
use term_pool::pool::Pool;

// The list of the parts of a term that is a pack of this type.
fn pack_parts(pool: &Pool, of: usize, term: usize) -> Option<usize>
    requires { IsTypeNumber pool.now of }
    ensures { MatchOption result (IsNoPack (type_at pool.now of) (term_at pool.now term)) (IsPack pool.now term of) }
{
    pool.one_number();
    match term_form(pool, term) {
        TermForm::Pack(own, parts) => { if own == of { Some(parts) } else { None } }
        _ => None,
    }
}

// The first of a list of terms and the rest.
fn next_part(pool: &Pool, list: usize) -> Option<(usize, usize)>
    ensures { MatchOption result (terms_at pool.now list ≡ NoTerms) (IsNextPart pool.now list) }
{
    match pool.node(list) {
        Some(Node::Two(Two::ConsTerm, first, rest)) => Some((first, rest)),
        _ => None,
    }
}

// The numbers of the terms of a list.
fn part_numbers(alloc: Global, pool: &Pool, parts: usize) -> Result<Vec<usize>, NoMemory>
    ensures { IfOk result (λ numbers. AreItems pool.now numbers.items (map TermItem (list_of_terms (terms_at pool.now parts)))) }
{
    let mut numbers = Vec::new(alloc);
    let mut list = parts;
    while let Some((first, rest)) = next_part(pool, list) {
        numbers.push(first)?;
        list = rest;
    }
    Ok(numbers)
}

// The list of the formulas that state the types of the terms; none if a type is not found.
fn typed_list(
    pool: &mut Pool,
    types: &[Option<usize>],
    parts: &[usize],
) -> Result<Option<usize>, NoMemory>
    requires types { AreFound pool.old types.now }
    requires parts { AreTermNumbers pool.old parts.now }
    requires many { length types.now ≡ length parts.now }
    ensures extends { Extends pool.old pool.new }
    ensures is { IfOk result (λ made. MatchOption made (LacksType types.now) (IsTypedList pool.old pool.new types.now parts.now)) }
{
    let mut list = pool.insert(Node::Leaf(Leaf::NilFormulas))?;
    let mut rest = parts.len();
    while rest > 0 {
        rest -= 1;
        let found = types[rest];
        let Some(of) = found else {
            return Ok(None);
        };
        let typed = pool.insert(Node::Two(Two::Is, of, parts[rest]))?;
        list = pool.insert(Node::Two(Two::ConsFormula, typed, list))?;
    }
    Ok(Some(list))
}

// Adds the instance for a pack, with the list of the formulas that state that its parts have the types of the fields.
fn ask_typed_parts(
    pool: &mut Pool,
    list: &mut TriggeredList,
    of: usize,
    term: usize,
    formulas: usize,
) -> Result<(), NoMemory>
    requires of { IsTypeNumber pool.old of }
    requires term { IsTermNumber pool.old term }
    requires formulas { IsItem pool.old formulas (FormulasItem (formulas_in (item_at pool.old formulas))) }
    ensures extends { Extends pool.old pool.new }
    ensures adds { IfOk result (λ u. Adds pool.old pool.new list.old.items.items list.new.items.items (pack_typed_row (type_at pool.old of) (term_at pool.old term) (formulas_in (item_at pool.old formulas)) ∷ [])) }
{
    let rows = [Row {
        name: Axiom::OfStruct(StructAxiom::PackTyped),
        position: 5,
    }];
    let nodes = [
        Node::Two(Two::Is, 1, 0),
        Node::One(One::Join(Junction::AllOf), 2),
        Node::Two(Two::Connect(Connective::Iff), 3, 4),
    ];
    ask(
        pool,
        list,
        TriggeredTerms::One(term),
        &[term, of, formulas],
        &nodes,
        &rows,
    )
}

// Adds the instance for a pack of a type if the type has a shape with as many fields, all of whose types are found.
fn ask_parts(
    pool: &mut Pool,
    list: &mut TriggeredList,
    shapes: &Shapes,
    of: usize,
    term: usize,
    parts: usize,
) -> Result<(), NoMemory>
    requires { IsPack pool.old term of parts }
    ensures extends { Extends pool.old pool.new }
    ensures adds { IfOk result (λ u. AddsAll pool.old pool.new list.old.items.items list.new.items.items (AsksPackTyped shapes.now (type_at pool.old of) (term_at pool.old term))) }
{
    let numbers = part_numbers(list.alloc, pool, parts)?;
    let Some(types) = field_types(list.alloc, pool, shapes, of)? else {
        return Ok(());
    };
    if types.len() != numbers.len() {
        return Ok(());
    }
    let Some(formulas) = typed_list(pool, types.as_slice(), numbers.as_slice())? else {
        return Ok(());
    };
    ask_typed_parts(pool, list, of, term, formulas)?;
    Ok(())
}

/// Adds at the end the instances of the axiom on the types of the parts of a pack that a type and a term trigger.
pub(crate) fn ask_pack_typed(
    pool: &mut Pool,
    list: &mut TriggeredList,
    shapes: &Shapes,
    of: usize,
    term: usize,
) -> Result<(), NoMemory>
    requires { IsTypeNumber pool.old of }
    ensures extends { Extends pool.old pool.new }
    ensures adds { IfOk result (λ u. AddsAll pool.old pool.new list.old.items.items list.new.items.items (AsksPackTyped shapes.now (type_at pool.old of) (term_at pool.old term))) }
{
    match pack_parts(pool, of, term) {
        Some(parts) => ask_parts(pool, list, shapes, of, term, parts),
        None => Ok(()),
    }
}

//! The instances of the axiom that a struct is the pack of its fields.

ghost use Rattle.std.specs.Prelude.{◌≡◌, [], ◌∷◌, IfOk};
ghost use Rattle.fol.specs.FormulaData.{terms_of};
ghost use Rattle.term_pool.specs.Items.{TermsItem};
ghost use Rattle.term_pool.specs.Pools.{IsItem, Extends};
ghost use Rattle.axiom_instances.specs.Lists.{Adds, ListsAll};
ghost use Rattle.axiom_instances.specs.Numbers.{IsTermNumber, IsTypeNumber, term_at, type_at};
ghost use Rattle.axiom_instances.specs.StructRows.{HasFewFields, AddsAll};
ghost use Rattle.axiom_instances.specs.PackedRows.{fields_of, packed_row, AsksPacked};

use crate::structs::field_count;
use crate::triggered::{Row, TriggeredAxiom, TriggeredList, TriggeredTerms, ask};
use axioms::axiom::{Axiom, StructAxiom};
use base::memory::NoMemory;
use fol::operators::{Comparison, Junction};
use fol::shapes::Shapes;
use std::alloc::Global;
use term_pool::node::{Leaf, Node, One, Two};
use term_pool::pool::Pool;

// The list of the first `count` fields of a term, as a struct of this type.
fn field_list(pool: &mut Pool, of: usize, term: usize, count: u32) -> Result<usize, NoMemory>
    requires of { IsTypeNumber pool.old of }
    requires term { IsTermNumber pool.old term }
    ensures extends { Extends pool.old pool.new }
    ensures is { IfOk result (λ number. IsItem pool.new number (TermsItem (terms_of (fields_of (type_at pool.old of) (term_at pool.old term) count)))) }
{
    let mut list = pool.insert(Node::Leaf(Leaf::NilTerms))?;
    let mut rest = count;
    while rest > 0 {
        rest -= 1;
        let field = pool.insert(Node::Two(Two::Field(rest), of, term))?;
        list = pool.insert(Node::Two(Two::ConsTerm, field, list))?;
    }
    Ok(list)
}

// Adds the instance for a term with this number of fields.
fn ask_fields(
    pool: &mut Pool,
    list: &mut TriggeredList,
    of: usize,
    term: usize,
    count: u32,
) -> Result<(), NoMemory>
    requires of { IsTypeNumber pool.old of }
    requires term { IsTermNumber pool.old term }
    ensures extends { Extends pool.old pool.new }
    ensures adds { IfOk result (λ u. Adds pool.old pool.new list.old.items.items list.new.items.items (packed_row (type_at pool.old of) (term_at pool.old term) count ∷ [])) }
{
    let parts = field_list(pool, of, term, count)?;
    let rows = [Row {
        name: Axiom::OfStruct(StructAxiom::PackOfFields),
        position: 10,
    }];
    let nodes = [
        Node::Two(Two::Pack, 1, 2),
        Node::Two(Two::Is, 1, 0),
        Node::One(One::Not, 4),
        Node::Two(Two::Compare(Comparison::Eq), 0, 3),
        Node::Leaf(Leaf::NilFormulas),
        Node::Two(Two::ConsFormula, 6, 7),
        Node::Two(Two::ConsFormula, 5, 8),
        Node::One(One::Join(Junction::AnyOf), 9),
    ];
    ask(
        pool,
        list,
        TriggeredTerms::One(term),
        &[term, of, parts],
        &nodes,
        &rows,
    )?;
    Ok(())
}

/// Adds at the end the instances of this axiom that a type and a term trigger.
pub(crate) fn ask_packed(
    pool: &mut Pool,
    list: &mut TriggeredList,
    shapes: &Shapes,
    of: usize,
    term: usize,
) -> Result<(), NoMemory>
    requires few { HasFewFields shapes.now }
    requires of { IsTypeNumber pool.old of }
    requires term { IsTermNumber pool.old term }
    ensures extends { Extends pool.old pool.new }
    ensures adds { IfOk result (λ u. AddsAll pool.old pool.new list.old.items.items list.new.items.items (AsksPacked shapes.now (type_at pool.old of) (term_at pool.old term))) }
{
    match field_count(list.alloc, pool, shapes, of)? {
        Some(count) => {
            ask_fields(pool, list, of, term, count)?;
            Ok(())
        }
        None => Ok(()),
    }
}

/// The instances of the axiom that a struct is the pack of its fields that a type and a term trigger together, under
/// the shapes of structs, each of which has fewer than 2^32 fields.
pub fn axioms_of_packed(
    alloc: Global,
    pool: &mut Pool,
    shapes: &Shapes,
    of: usize,
    term: usize,
) -> Result<Vec<TriggeredAxiom>, NoMemory>
    requires few { HasFewFields shapes.now }
    requires of { IsTypeNumber pool.old of }
    requires term { IsTermNumber pool.old term }
    ensures extends { Extends pool.old pool.new }
    ensures all { IfOk result (λ found. ListsAll pool.new found.items (AsksPacked shapes.now (type_at pool.old of) (term_at pool.old term))) }
{
    let mut list = TriggeredList {
        alloc,
        items: Vec::new(alloc),
    };
    ask_packed(pool, &mut list, shapes, of, term)?;
    Ok(list.items)
}

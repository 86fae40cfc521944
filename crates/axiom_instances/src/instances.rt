//! The triggered instances, as lists.

ghost use Rattle.std.specs.Prelude.{IfOk, List};
ghost use Rattle.fol.specs.declared.shapes.Shape.{Shape};
ghost use Rattle.term_pool.specs.Pools.{Extends};
ghost use Rattle.axiom_instances.specs.Asks.{AlwaysTriggered, AsksOfTerm, AsksOfType, AsksOfTypeAlone, AsksOfTypeBeside, AsksOfRead, AsksOfItem};
ghost use Rattle.axiom_instances.specs.Lists.{ListsAll};
ghost use Rattle.axiom_instances.specs.Numbers.{IsPack, IsTermNumber, IsTypeNumber, term_at, type_at};
ghost use Rattle.axiom_instances.specs.StructRows.{HasFewFields};
ghost use Rattle.axiom_instances.specs.Rows.{IsPlain};
ghost use Rattle.axiom_instances.specs.TypeRows.{IsNoStruct};

use crate::nodes::{constant, equal, holds, not, typed};
use crate::pairs::{ask_beside, ask_item, ask_read};
use crate::structs::ask_pack;
use crate::terms::ask_term;
use crate::triggered::{Row, TriggeredAxiom, TriggeredList, TriggeredTerms, ask};
use crate::types::ask_typed;
use axioms::axiom::{Axiom, Fact};
use base::memory::NoMemory;
use fol::operators::Constant;
use fol::shapes::Shapes;
use std::alloc::Global;
use term_pool::pool::Pool;

/// The instances that are always triggered.
pub fn always_triggered(alloc: Global, pool: &mut Pool) -> Result<Vec<TriggeredAxiom>, NoMemory>
    ensures extends { Extends pool.old pool.new }
    ensures all { IfOk result (λ found. ListsAll pool.new found.items AlwaysTriggered) }
{
    let mut list = TriggeredList {
        alloc,
        items: Vec::new(alloc),
    };
    let rows = [
        Row {
            name: Axiom::Plain(Fact::TruthsDiffer),
            position: 3,
        },
        Row {
            name: Axiom::Plain(Fact::TrueHolds),
            position: 4,
        },
        Row {
            name: Axiom::Plain(Fact::FalseFails),
            position: 6,
        },
        Row {
            name: Axiom::Plain(Fact::NothingFails),
            position: 9,
        },
    ];
    let nodes = [
        constant!(Constant::True),
        constant!(Constant::False),
        equal!(0, 1),
        not!(2),
        holds!(0),
        holds!(1),
        not!(5),
        constant!(Constant::Nothing),
        holds!(7),
        not!(8),
    ];
    ask(pool, &mut list, TriggeredTerms::None, &[], &nodes, &rows)?;
    Ok(list.items)
}

/// The instances that a term triggers, other than a pack or a field update, for any shapes of structs.
pub fn axioms_of_plain_term(
    alloc: Global,
    pool: &mut Pool,
    term: usize,
) -> Result<Vec<TriggeredAxiom>, NoMemory>
    requires { IsPlain (term_at pool.old term) }
    ensures extends { Extends pool.old pool.new }
    ensures all { IfOk result (λ found. (shapes : List Shape) → ListsAll pool.new found.items (AsksOfTerm shapes (term_at pool.old term))) }
{
    let mut list = TriggeredList {
        alloc,
        items: Vec::new(alloc),
    };
    ask_term(pool, &mut list, term)?;
    Ok(list.items)
}

/// The instances that a term triggers when it, or the memory or vector from which it is made, is read at a key or
/// index.
pub fn axioms_of_read(
    alloc: Global,
    pool: &mut Pool,
    term: usize,
    key: usize,
) -> Result<Vec<TriggeredAxiom>, NoMemory>
    requires { IsTermNumber pool.old key }
    ensures extends { Extends pool.old pool.new }
    ensures all { IfOk result (λ found. ListsAll pool.new found.items (AsksOfRead (term_at pool.old term) (term_at pool.old key))) }
{
    let mut list = TriggeredList {
        alloc,
        items: Vec::new(alloc),
    };
    ask_read(pool, &mut list, term, key)?;
    Ok(list.items)
}

/// The instances that a type and a vector trigger when the vector is read at an index.
pub fn axioms_of_item(
    alloc: Global,
    pool: &mut Pool,
    of: usize,
    vector: usize,
    position: usize,
) -> Result<Vec<TriggeredAxiom>, NoMemory>
    requires vector { IsTermNumber pool.old vector }
    requires position { IsTermNumber pool.old position }
    ensures extends { Extends pool.old pool.new }
    ensures all { IfOk result (λ found. ListsAll pool.new found.items (AsksOfItem (type_at pool.old of) (term_at pool.old vector) (term_at pool.old position))) }
{
    let mut list = TriggeredList {
        alloc,
        items: Vec::new(alloc),
    };
    ask_item(pool, &mut list, of, vector, position)?;
    Ok(list.items)
}

/// The instances that a type triggers when an entry gives it to some term, or denies it.
pub fn axioms_of_type(
    alloc: Global,
    pool: &mut Pool,
    of: usize,
) -> Result<Vec<TriggeredAxiom>, NoMemory>
    requires { IsTypeNumber pool.old of }
    ensures extends { Extends pool.old pool.new }
    ensures all { IfOk result (λ found. ListsAll pool.new found.items (AsksOfTypeAlone (type_at pool.old of))) }
{
    let mut list = TriggeredList {
        alloc,
        items: Vec::new(alloc),
    };
    let rows = [Row {
        name: Axiom::Plain(Fact::NothingUntyped),
        position: 3,
    }];
    let nodes = [constant!(Constant::Nothing), typed!(0, 1), not!(2)];
    ask(pool, &mut list, TriggeredTerms::None, &[of], &nodes, &rows)?;
    Ok(list.items)
}

/// The instances that a type and a term trigger when an entry gives the type to some term, or denies it, and the term
/// occurs.
pub fn axioms_of_type_beside(
    alloc: Global,
    pool: &mut Pool,
    of: usize,
    term: usize,
) -> Result<Vec<TriggeredAxiom>, NoMemory>
    ensures extends { Extends pool.old pool.new }
    ensures all { IfOk result (λ found. ListsAll pool.new found.items (AsksOfTypeBeside (type_at pool.old of) (term_at pool.old term))) }
{
    let mut list = TriggeredList {
        alloc,
        items: Vec::new(alloc),
    };
    ask_beside(pool, &mut list, of, term)?;
    Ok(list.items)
}

/// The instances that a type other than a struct type triggers when an entry gives it to this term, or denies it; for
/// any shapes of structs.
pub fn axioms_of_typed(
    alloc: Global,
    pool: &mut Pool,
    of: usize,
    term: usize,
) -> Result<Vec<TriggeredAxiom>, NoMemory>
    requires plain { IsNoStruct (type_at pool.old of) }
    requires of { IsTypeNumber pool.old of }
    requires term { IsTermNumber pool.old term }
    ensures extends { Extends pool.old pool.new }
    ensures all { IfOk result (λ found. (shapes : List Shape) → ListsAll pool.new found.items (AsksOfType shapes (type_at pool.old of) (term_at pool.old term))) }
{
    let mut list = TriggeredList {
        alloc,
        items: Vec::new(alloc),
    };
    ask_typed(pool, &mut list, of, term)?;
    Ok(list.items)
}

/// The instances that a pack of this struct type triggers, under the shapes of structs, each of which has fewer than
/// 2^32 fields.
pub fn axioms_of_pack(
    alloc: Global,
    pool: &mut Pool,
    shapes: &Shapes,
    term: usize,
    of: usize,
    parts: usize,
) -> Result<Vec<TriggeredAxiom>, NoMemory>
    requires few { HasFewFields shapes.now }
    requires term { IsPack pool.old term of parts }
    ensures extends { Extends pool.old pool.new }
    ensures all { IfOk result (λ found. ListsAll pool.new found.items (AsksOfTerm shapes.now (term_at pool.old term))) }
{
    let mut list = TriggeredList {
        alloc,
        items: Vec::new(alloc),
    };
    ask_pack(pool, &mut list, shapes, term, of, parts)?;
    Ok(list.items)
}

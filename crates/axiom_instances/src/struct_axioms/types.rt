//! All instances that a type and a term trigger together.

ghost use Rattle.std.specs.Prelude.{IfOk, MatchBool};
ghost use Rattle.term_pool.specs.Pools.{IsMade, Extends};
ghost use Rattle.term_pool.specs.declared.node.Node.TheVariants.{Three as ThreeNode};
ghost use Rattle.axiom_instances.specs.FieldTypes.{IsNoStructType};
ghost use Rattle.axiom_instances.specs.Asks.{AsksOfType};
ghost use Rattle.axiom_instances.specs.Lists.{ListsAll};
ghost use Rattle.axiom_instances.specs.Numbers.{IsTermNumber, IsTypeNumber, IsStructType, term_at, type_at};
ghost use Rattle.axiom_instances.specs.StructRows.{HasFewFields};

use crate::instances::axioms_of_typed;
use crate::struct_axioms::field_typed::ask_typed_fields;
use crate::struct_axioms::pack_typed::ask_pack_typed;
use crate::struct_axioms::packed::ask_packed;
use crate::triggered::{TriggeredAxiom, TriggeredList};
use base::memory::NoMemory;
use fol::shapes::Shapes;
use std::alloc::Global;
use term_pool::node::{Node, Three};
use term_pool::pool::Pool;

fn is_three_struct(pool: &Pool, of: usize, head: Three, a: usize, b: usize, c: usize) -> bool
    requires { IsMade pool.now of (ThreeNode head a b c) }
    ensures { MatchBool result (IsStructType pool.now of) (IsNoStructType (type_at pool.now of)) }
{
    match head {
        Three::TypeStruct(_) => true,
        _ => false,
    }
}

// Decides whether a type is a struct type.
fn is_struct(pool: &Pool, of: usize) -> bool
    ensures { MatchBool result (IsStructType pool.now of) (IsNoStructType (type_at pool.now of)) }
{
    match pool.node(of) {
        Some(Node::Leaf(_)) => false,
        Some(Node::One(_, _)) => false,
        Some(Node::Two(_, _, _)) => false,
        Some(Node::Three(head, a, b, c)) => is_three_struct(pool, of, head, a, b, c),
        None => false,
    }
}

// The instances that a struct type and a term trigger together.
fn axioms_of_struct(
    alloc: Global,
    pool: &mut Pool,
    shapes: &Shapes,
    of: usize,
    term: usize,
) -> Result<Vec<TriggeredAxiom>, NoMemory>
    requires few { HasFewFields shapes.now }
    requires struct_type { IsStructType pool.old of }
    requires of { IsTypeNumber pool.old of }
    requires term { IsTermNumber pool.old term }
    ensures extends { Extends pool.old pool.new }
    ensures all { IfOk result (λ found. ListsAll pool.new found.items (AsksOfType shapes.now (type_at pool.old of) (term_at pool.old term))) }
{
    let mut list = TriggeredList {
        alloc,
        items: Vec::new(alloc),
    };
    ask_packed(pool, &mut list, shapes, of, term)?;
    ask_typed_fields(pool, &mut list, shapes, of, term)?;
    ask_pack_typed(pool, &mut list, shapes, of, term)?;
    Ok(list.items)
}

/// The instances that a type and a term trigger together when an entry gives the type to the term, or denies it, under
/// the shapes of structs, each of which has fewer than 2^32 fields.
pub fn axioms_of_typed_term(
    alloc: Global,
    pool: &mut Pool,
    shapes: &Shapes,
    of: usize,
    term: usize,
) -> Result<Vec<TriggeredAxiom>, NoMemory>
    requires few { HasFewFields shapes.now }
    requires of { IsTypeNumber pool.old of }
    requires term { IsTermNumber pool.old term }
    ensures extends { Extends pool.old pool.new }
    ensures all { IfOk result (λ found. ListsAll pool.new found.items (AsksOfType shapes.now (type_at pool.old of) (term_at pool.old term))) }
{
    if is_struct(pool, of) {
        axioms_of_struct(alloc, pool, shapes, of, term)
    } else {
        axioms_of_typed(alloc, pool, of, term)
    }
}

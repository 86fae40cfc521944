//! The types of the fields of a struct type, with its type arguments substituted.

ghost use Rattle.std.specs.Prelude.{IfOk, MatchOption};
ghost use Rattle.term_pool.specs.Pools.{IsMade, Extends};
ghost use Rattle.term_pool.specs.declared.node.Node.TheVariants.{Three as ThreeNode};
ghost use Rattle.axiom_instances.specs.Puts.{type_at, types_at, IsTypeNumber, IsTypesNumber};
ghost use Rattle.axiom_instances.specs.FieldTypes.{IsNoStructType, AreArguments, HasNoShape, ArePutResults, AreFieldTypes};

use crate::field_types::put::put_arguments;
use axioms::fields::{items, struct_shape};
use base::memory::NoMemory;
use base::types::TypeTerm;
use fol::shapes::Shapes;
use std::alloc::Global;
use term_pool::interning::intern_type;
use term_pool::node::{Node, Three};
use term_pool::pool::Pool;
use term_pool::reading::read_type;

fn three_arguments(
    pool: &Pool,
    of: usize,
    head: Three,
    a: usize,
    b: usize,
    c: usize,
) -> Option<usize>
    requires { IsMade pool.now of (ThreeNode head a b c) }
    ensures { MatchOption result (IsNoStructType (type_at pool.now of)) (AreArguments pool.now of) }
{
    match head {
        Three::TypeStruct(_) => Some(c),
        _ => None,
    }
}

// The list of the type arguments of a struct type.
fn arguments(pool: &Pool, of: usize) -> Option<usize>
    ensures { MatchOption result (IsNoStructType (type_at pool.now of)) (AreArguments pool.now of) }
{
    match pool.node(of) {
        Some(Node::Leaf(_)) => None,
        Some(Node::One(_, _)) => None,
        Some(Node::Two(_, _, _)) => None,
        Some(Node::Three(head, a, b, c)) => three_arguments(pool, of, head, a, b, c),
        None => None,
    }
}

// The types of fields with type arguments substituted; `None` for a field with a type parameter that has no argument.
fn put_in_all(
    alloc: Global,
    pool: &mut Pool,
    args: usize,
    fields: &[TypeTerm],
) -> Result<Vec<Option<usize>>, NoMemory>
    requires { IsTypesNumber pool.old args }
    ensures extends { Extends pool.old pool.new }
    ensures are { IfOk result (λ found. ArePutResults pool.new (types_at pool.old args) fields.now found.items) }
{
    let mut found = Vec::new(alloc);
    for field in fields {
        let from = intern_type(pool, field)?;
        let put = put_arguments(pool, args, from)?;
        found.push(put)?;
    }
    Ok(found)
}

/// Returns the types of the fields of a struct type, in order, with its type arguments substituted, and `None` for a
/// field with a type parameter that has no argument. Returns none if the type is no struct type with a shape.
pub fn field_types(
    alloc: Global,
    pool: &mut Pool,
    shapes: &Shapes,
    of: usize,
) -> Result<Option<Vec<Option<usize>>>, NoMemory>
    ensures extends { Extends pool.old pool.new }
    ensures are { IfOk result (λ found. MatchOption found (HasNoShape shapes.now (type_at pool.old of)) (λ types. AreFieldTypes pool.new shapes.now (type_at pool.old of) types.items)) }
{
    let Some(args) = arguments(pool, of) else {
        return Ok(None);
    };
    let tree = read_type(alloc, pool, of)?;
    let Some(shape) = struct_shape(shapes, &tree) else {
        return Ok(None);
    };
    let types = put_in_all(alloc, pool, args, items(&shape.fields))?;
    Ok(Some(types))
}

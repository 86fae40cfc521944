//! Adds types to a pool.

ghost use Rattle.std.specs.Prelude.{◌≡◌, ◌<◌, length, map, All, IfOk, OnOk};
ghost use Rattle.base.specs.TypeData.{types_of, StructType, TupleType};
ghost use Rattle.typing_rules.specs.Sorts.{made};
ghost use Rattle.typing_rules.specs.Pools.{type_at, types, plain_type};
ghost use Rattle.unification.specs.Numbers.{Keeps};

use base::memory::NoMemory;
use base::types::{StructId, TypeNode, TypeTerm};
use program::sequence::Sequence;
use std::alloc::Global;
use typing_rules::sort::Wrap;
use typing_rules::type_pool::{PlainType, PoolType, TypePool};

fn add_plain(pool: &mut TypePool, of: PlainType) -> Result<usize, NoMemory>
    ensures keeps { IfOk result (λ number. Keeps pool.old pool.new) }
    ensures within { IfOk result (λ number. number < length pool.new) }
    ensures is { IfOk result (λ number. type_at (types pool.new) number ≡ plain_type of) }
{
    pool.add(PoolType::Plain(of))
}

/// Adds the type that a constructor makes of a type in the pool, and returns its number.
pub fn add_made(pool: &mut TypePool, wrap: Wrap, part: usize) -> Result<usize, NoMemory>
    requires { part < length pool.old }
    ensures keeps { IfOk result (λ number. Keeps pool.old pool.new) }
    ensures within { IfOk result (λ number. number < length pool.new) }
    ensures is { IfOk result (λ number. type_at (types pool.new) number ≡ made wrap (type_at (types pool.old) part)) }
{
    pool.add(PoolType::Made(wrap, part))
}

/// Adds a struct with its type arguments, and returns its number.
pub fn add_struct(
    alloc: Global,
    pool: &mut TypePool,
    id: &StructId,
    parts: Sequence<usize>,
) -> Result<usize, NoMemory>
    requires { All (λ n. n < length pool.old) parts }
    ensures keeps { IfOk result (λ number. Keeps pool.old pool.new) }
    ensures within { IfOk result (λ number. number < length pool.new) }
    ensures is { IfOk result (λ number. type_at (types pool.new) number ≡ StructType id.now (types_of (map (type_at (types pool.old)) parts))) }
{
    pool.add(PoolType::Struct(id.try_clone(alloc)?, parts))
}

/// Adds a tuple, and returns its number.
pub fn add_tuple(pool: &mut TypePool, parts: Sequence<usize>) -> Result<usize, NoMemory>
    requires { All (λ n. n < length pool.old) parts }
    ensures keeps { IfOk result (λ number. Keeps pool.old pool.new) }
    ensures within { IfOk result (λ number. number < length pool.new) }
    ensures is { IfOk result (λ number. type_at (types pool.new) number ≡ TupleType (types_of (map (type_at (types pool.old)) parts))) }
{
    pool.add(PoolType::Tuple(parts))
}

/// Adds a written type, its parts first, and returns its number.
#[cycle(add_type)]
pub fn add_type(alloc: Global, pool: &mut TypePool, of: &TypeTerm) -> Result<usize, NoMemory>
    ensures keeps { IfOk result (λ number. Keeps pool.old pool.new) }
    ensures within { IfOk result (λ number. number < length pool.new) }
    ensures is { IfOk result (λ number. type_at (types pool.new) number ≡ of.now) }
{
    match &of.node {
        TypeNode::Bool => add_plain(pool, PlainType::Bool),
        TypeNode::Int(width) => add_plain(pool, PlainType::Int(*width)),
        TypeNode::Num => add_plain(pool, PlainType::Num),
        TypeNode::Address => add_plain(pool, PlainType::Address),
        TypeNode::Signer => add_plain(pool, PlainType::Signer),
        TypeNode::Param(number) => add_plain(pool, PlainType::Param(*number)),
        TypeNode::Vector(part) => add_made_type(alloc, pool, Wrap::Vector, part),
        TypeNode::Shared(part) => add_made_type(alloc, pool, Wrap::Shared, part),
        TypeNode::Mutable(part) => add_made_type(alloc, pool, Wrap::Mutable, part),
        TypeNode::Struct(id, parts) => {
            let numbers = add_types(alloc, pool, &parts.items)?;
            add_struct(alloc, pool, id, numbers)
        }
        TypeNode::Tuple(parts) => {
            let numbers = add_types(alloc, pool, &parts.items)?;
            add_tuple(pool, numbers)
        }
    }
}

#[cycle(add_type)]
fn add_made_type(
    alloc: Global,
    pool: &mut TypePool,
    wrap: Wrap,
    part: &TypeTerm,
) -> Result<usize, NoMemory>
    ensures keeps { IfOk result (λ number. Keeps pool.old pool.new) }
    ensures within { IfOk result (λ number. number < length pool.new) }
    ensures is { IfOk result (λ number. type_at (types pool.new) number ≡ made wrap part.now) }
{
    let number = add_type(alloc, pool, part)?;
    add_made(pool, wrap, number)
}

/// Adds written types, and returns their numbers.
#[cycle(add_type)]
fn add_types(
    alloc: Global,
    pool: &mut TypePool,
    parts: &[TypeTerm],
) -> Result<Sequence<usize>, NoMemory>
    ensures keeps { IfOk result (λ numbers. Keeps pool.old pool.new) }
    ensures within { IfOk result (λ numbers. All (λ n. n < length pool.new) numbers) }
    ensures are { IfOk result (λ numbers. map (type_at (types pool.new)) numbers ≡ parts.now) }
{
    let mut numbers = Sequence::new(alloc);
    for part in parts {
        let number = add_type(alloc, pool, part)?;
        numbers.push(number)?;
    }
    Ok(numbers)
}

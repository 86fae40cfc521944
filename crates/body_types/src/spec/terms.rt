//! Types of a pool as trees.

ghost use Rattle.std.specs.Prelude.{◌≡◌, ◌<◌, length, map, All, IfOk};
ghost use Rattle.base.specs.TypeData.{StructType, TupleType, types_of};
ghost use Rattle.typing_rules.specs.Sorts.{made};
ghost use Rattle.typing_rules.specs.Pools.{plain_type, type_at, types};

use base::memory::NoMemory;
use base::types::{StructId, TypeList, TypeNode, TypeTerm};
use std::alloc::Global;
use typing_rules::sort::Wrap;
use typing_rules::type_pool::{PlainType, PoolType, TypePool};

fn plain_term(of: PlainType) -> TypeTerm
    ensures { result ≡ plain_type of }
{
    let node = match of {
        PlainType::Bool => TypeNode::Bool,
        PlainType::Int(width) => TypeNode::Int(width),
        PlainType::Num => TypeNode::Num,
        PlainType::Address => TypeNode::Address,
        PlainType::Signer => TypeNode::Signer,
        PlainType::Param(number) => TypeNode::Param(number),
    };
    TypeTerm { node }
}

fn made_term(wrap: Wrap, part: Box<TypeTerm>) -> TypeTerm
    ensures { result ≡ made wrap part.value }
{
    let node = match wrap {
        Wrap::Vector => TypeNode::Vector(part),
        Wrap::Shared => TypeNode::Shared(part),
        Wrap::Mutable => TypeNode::Mutable(part),
    };
    TypeTerm { node }
}

/// The type that a constructor makes of the type with this number.
#[cycle(term_of)]
fn wrapped_term(
    alloc: Global,
    pool: &TypePool,
    wrap: Wrap,
    part: usize,
) -> Result<TypeTerm, NoMemory>
    requires { part < length pool.now }
    ensures { IfOk result (λ term. term ≡ made wrap (type_at (types pool.now) part)) }
{
    let part = Box::new(alloc, term_of(alloc, pool, part)?)?;
    Ok(made_term(wrap, part))
}

/// The types with these numbers.
#[cycle(term_of)]
fn terms_of(alloc: Global, pool: &TypePool, numbers: &[usize]) -> Result<TypeList, NoMemory>
    requires { All (λ n. n < length pool.now) numbers.now }
    ensures { IfOk result (λ terms. terms ≡ types_of (map (type_at (types pool.now)) numbers.now)) }
{
    let mut items = Vec::new(alloc);
    for number in numbers {
        let term = term_of(alloc, pool, *number)?;
        items.push(term)?;
    }
    Ok(TypeList { items })
}

#[cycle(term_of)]
fn struct_term(
    alloc: Global,
    pool: &TypePool,
    id: &StructId,
    arguments: &[usize],
) -> Result<TypeTerm, NoMemory>
    requires { All (λ n. n < length pool.now) arguments.now }
    ensures { IfOk result (λ term. term ≡ StructType id.now (types_of (map (type_at (types pool.now)) arguments.now))) }
{
    let arguments = terms_of(alloc, pool, arguments)?;
    Ok(TypeTerm {
        node: TypeNode::Struct(id.try_clone(alloc)?, arguments),
    })
}

#[cycle(term_of)]
fn tuple_term(alloc: Global, pool: &TypePool, parts: &[usize]) -> Result<TypeTerm, NoMemory>
    requires { All (λ n. n < length pool.now) parts.now }
    ensures { IfOk result (λ term. term ≡ TupleType (types_of (map (type_at (types pool.now)) parts.now))) }
{
    let parts = terms_of(alloc, pool, parts)?;
    Ok(TypeTerm {
        node: TypeNode::Tuple(parts),
    })
}

/// Returns the type with this number as a tree. A part that types in the pool share is copied for each occurrence, so
/// the tree may be larger than the pool. The depth of recursion is that of the type.
#[cycle(term_of)]
pub fn term_of(alloc: Global, pool: &TypePool, number: usize) -> Result<TypeTerm, NoMemory>
    requires { number < length pool.now }
    ensures { IfOk result (λ term. term ≡ type_at (types pool.now) number) }
{
    match pool.entry(number) {
        PoolType::Plain(of) => Ok(plain_term(*of)),
        PoolType::Made(wrap, part) => wrapped_term(alloc, pool, *wrap, *part),
        PoolType::Struct(id, arguments) => struct_term(alloc, pool, id, arguments.as_slice()),
        PoolType::Tuple(parts) => tuple_term(alloc, pool, parts.as_slice()),
    }
}

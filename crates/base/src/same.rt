//! Equality and copies of types.

ghost use Rattle.std.specs.Prelude.{◌≡◌, ◌↔◌, ◌++◌, IsTrue, IfOk, OnOk};

use crate::memory::NoMemory;
use crate::types::{FunctionId, StructId, TypeList, TypeNode, TypeTerm};
use std::alloc::Global;

/// Decides whether two types are equal.
#[cycle(same_type)]
pub fn same_type(left: &TypeTerm, right: &TypeTerm) -> bool
    ensures { IsTrue result ↔ (left.now ≡ right.now) }
{
    match (&left.node, &right.node) {
        (TypeNode::Bool, TypeNode::Bool) => true,
        (TypeNode::Int(a), TypeNode::Int(b)) => *a == *b,
        (TypeNode::Num, TypeNode::Num) => true,
        (TypeNode::Address, TypeNode::Address) => true,
        (TypeNode::Signer, TypeNode::Signer) => true,
        (TypeNode::Vector(a), TypeNode::Vector(b)) => same_type(a, b),
        (TypeNode::Struct(s, a), TypeNode::Struct(t, b)) => same_struct(s, t) && same_types(a, b),
        (TypeNode::Param(a), TypeNode::Param(b)) => *a == *b,
        (TypeNode::Shared(a), TypeNode::Shared(b)) => same_type(a, b),
        (TypeNode::Mutable(a), TypeNode::Mutable(b)) => same_type(a, b),
        (TypeNode::Tuple(a), TypeNode::Tuple(b)) => same_types(a, b),
        _ => false,
    }
}

/// Decides whether two lists of types are equal.
#[cycle(same_type)]
pub fn same_types(left: &TypeList, right: &TypeList) -> bool
    ensures { IsTrue result ↔ (left.now ≡ right.now) }
{
    same_slices(left.items.as_slice(), right.items.as_slice())
}

#[cycle(same_type)]
fn same_slices(left: &[TypeTerm], right: &[TypeTerm]) -> bool
    ensures { IsTrue result ↔ (left.now ≡ right.now) }
{
    match (left.split_first(), right.split_first()) {
        (None, None) => true,
        (Some((a, rest_a)), Some((b, rest_b))) => same_type(a, b) && same_slices(rest_a, rest_b),
        _ => false,
    }
}

/// Decides whether two names of structs are equal.
pub fn same_struct(left: &StructId, right: &StructId) -> bool
    ensures { IsTrue result ↔ (left.now ≡ right.now) }
{
    left.address == right.address && left.module == right.module && left.name == right.name
}

impl FunctionId {
    /// Returns a copy of the name of a function.
    pub fn try_clone(&self, alloc: Global) -> Result<FunctionId, NoMemory>
        ensures { IfOk result (λ copy. copy ≡ self.now) }
    {
        Ok(FunctionId {
            address: self.address,
            module: self.module.try_clone(alloc)?,
            name: self.name.try_clone(alloc)?,
        })
    }
}

impl StructId {
    /// Returns a copy of the name of a struct.
    pub fn try_clone(&self, alloc: Global) -> Result<StructId, NoMemory>
        ensures { IfOk result (λ copy. copy ≡ self.now) }
    {
        Ok(StructId {
            address: self.address,
            module: self.module.try_clone(alloc)?,
            name: self.name.try_clone(alloc)?,
        })
    }
}

/// Returns a copy of a type.
#[cycle(copy_type)]
pub fn copy_type(alloc: Global, from: &TypeTerm) -> Result<TypeTerm, NoMemory>
    ensures { IfOk result (λ copy. copy ≡ from.now) }
{
    let node = match &from.node {
        TypeNode::Bool => TypeNode::Bool,
        TypeNode::Int(width) => TypeNode::Int(*width),
        TypeNode::Num => TypeNode::Num,
        TypeNode::Address => TypeNode::Address,
        TypeNode::Signer => TypeNode::Signer,
        TypeNode::Vector(item) => TypeNode::Vector(copy_boxed(alloc, item)?),
        TypeNode::Struct(id, types) => {
            TypeNode::Struct(id.try_clone(alloc)?, copy_types(alloc, types)?)
        }
        TypeNode::Param(number) => TypeNode::Param(*number),
        TypeNode::Shared(to) => TypeNode::Shared(copy_boxed(alloc, to)?),
        TypeNode::Mutable(to) => TypeNode::Mutable(copy_boxed(alloc, to)?),
        TypeNode::Tuple(types) => TypeNode::Tuple(copy_types(alloc, types)?),
    };
    Ok(TypeTerm { node })
}

#[cycle(copy_type)]
fn copy_boxed(alloc: Global, from: &TypeTerm) -> Result<Box<TypeTerm>, NoMemory>
    ensures { IfOk result (λ copy. copy.value ≡ from.now) }
{
    Ok(Box::new(alloc, copy_type(alloc, from)?)?)
}

/// Returns a copy of a list of types.
#[cycle(copy_type)]
pub fn copy_types(alloc: Global, from: &TypeList) -> Result<TypeList, NoMemory>
    ensures { IfOk result (λ copy. copy ≡ from.now) }
{
    let mut items = Vec::new(alloc);
    copy_onto(alloc, from.items.as_slice(), &mut items)?;
    Ok(TypeList { items })
}

#[cycle(copy_type)]
fn copy_onto(alloc: Global, from: &[TypeTerm], items: &mut Vec<TypeTerm>) -> Result<(), NoMemory>
    ensures { OnOk result (items.new.items ≡ items.old.items ++ from.now) }
{
    if let Some((first, rest)) = from.split_first() {
        items.push(copy_type(alloc, first)?)?;
        copy_onto(alloc, rest, items)?;
    }
    Ok(())
}

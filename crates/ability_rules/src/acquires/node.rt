//! Nodes that are calls.

ghost use Rattle.std.specs.Prelude.{◌↔◌, ◌<◌, All, List, IsTrue, IfOk, length};
ghost use Rattle.base.specs.TypeData.{TypeData};
ghost use Rattle.base.specs.declared.types.StructId.{StructId};
ghost use Rattle.typing_rules.specs.Acquires.{Takes};
ghost use Rattle.typing_rules.specs.Pools.{type_of};
ghost use Rattle.type_constraints.specs.Storage.{IsStorageCall, IsStorageNode};
ghost use Rattle.ability_rules.specs.Missing.{CallLacks, IsMissing, IsSetOf, NodeLacks, Tells, type_of_variable};

use crate::acquires::callee::callee_lacks;
use crate::acquires::listed::has_struct;
use crate::acquires::look::Look;
use base::memory::NoMemory;
use base::types::{FunctionId, StructId};
use program::arena::Node;
use program::code::{Callee, CodeBinary, CodeLeaf, CodeMany, CodeUnary};
use program::operator::StorageOperation;
use program::table::Table;
use std::alloc::Global;
use typing_rules::type_pool::PoolType;

/// Decides whether an operation moves a value out of storage, or borrows it there.
fn takes(operation: StorageOperation) -> bool
    ensures { IsTrue result ↔ Takes operation }
{
    match operation {
        StorageOperation::MoveTo => false,
        StorageOperation::MoveFrom => true,
        StorageOperation::BorrowGlobal => true,
        StorageOperation::BorrowGlobalMut => true,
        StorageOperation::Exists => false,
    }
}

/// Decides whether a type is a struct that is not in the set.
fn is_missing(set: &Table<StructId, ()>, of: &PoolType) -> bool
    ensures { (listed : List StructId) → IsSetOf set.now listed → (ts : List TypeData) → IsTrue result ↔ IsMissing listed (type_of ts of.now) }
{
    match of {
        PoolType::Struct(id, _) => !has_struct(set, id),
        _ => false,
    }
}

/// Decides whether a storage operation, whose type argument is the type variable `first`, takes or borrows a struct
/// that is not listed.
fn storage_lacks<'a>(look: Look<'a>, first: usize, operation: StorageOperation) -> bool
    requires first { first < length look.variables.now }
    requires within { All (λ n. n < length look.pool.now) look.variables.now }
    ensures { (listed : List StructId) → IsSetOf look.entry.listed.now listed → IsTrue result ↔ Takes operation × IsMissing listed (type_of_variable look.entry.pool.now look.entry.variables.now first) }
{
    if takes(operation) {
        is_missing(look.listed, look.pool.entry(look.variables[first]))
    } else {
        false
    }
}

fn call_lacks<'a>(
    alloc: Global,
    look: Look<'a>,
    seen: &mut Table<FunctionId, ()>,
    first: usize,
    callee: &Callee,
) -> Result<bool, NoMemory>
    requires first { IsStorageCall callee.now → first < length look.variables.now }
    requires within { All (λ n. n < length look.pool.now) look.variables.now }
    ensures { IfOk result (Tells look.entry.program.now look.entry.own.now look.entry.listed.now seen.old seen.new (λ listed. CallLacks look.entry.program.now look.entry.own.now listed (type_of_variable look.entry.pool.now look.entry.variables.now first) callee.now)) }
{
    match callee {
        Callee::Function(id) => callee_lacks(alloc, look, seen, id),
        Callee::Storage(operation) => Ok(storage_lacks(look, first, *operation)),
        _ => Ok(false),
    }
}

/// Decides whether a struct that a node must list, whose type arguments are the type variables from `first` on, is not
/// listed.
pub(crate) fn node_lacks<'a>(
    alloc: Global,
    look: Look<'a>,
    seen: &mut Table<FunctionId, ()>,
    first: usize,
    node: &Node<CodeLeaf, CodeUnary, CodeBinary, CodeMany>,
) -> Result<bool, NoMemory>
    requires first { IsStorageNode node.now → first < length look.variables.now }
    requires within { All (λ n. n < length look.pool.now) look.variables.now }
    ensures { IfOk result (Tells look.entry.program.now look.entry.own.now look.entry.listed.now seen.old seen.new (λ listed. NodeLacks look.entry.program.now look.entry.own.now listed (type_of_variable look.entry.pool.now look.entry.variables.now first) node.now)) }
{
    match node {
        Node::Many(CodeMany::Call(call), _) => {
            call_lacks(alloc, look, seen, first, &call.get().callee)
        }
        _ => Ok(false),
    }
}

//! The builtins of the language: types, storage operations, functions of vectors and signers, and functions of
//! specifications.

ghost use Rattle.std.specs.Prelude.{◌≡◌};
ghost use Rattle.std.specs.Option.{option_map};
ghost use Rattle.scopes.specs.Builtins.{builtin_function, is_address_of, plain_type, spec_builtin, spec_move_function, storage_operation, vector_function};

use crate::member::MemberId;
use base::types::{TypeNode, TypeTerm, Width};
use program::code::Callee;
use program::operator::{SpecBuiltin, StorageOperation, VectorFunction};

/// Returns the storage operation that a word names.
pub fn storage_operation(word: &[u8]) -> Option<StorageOperation>
    ensures { result ≡ storage_operation word.now }
{
    if word == b"move_to".as_slice() {
        Some(StorageOperation::MoveTo)
    } else if word == b"move_from".as_slice() {
        Some(StorageOperation::MoveFrom)
    } else if word == b"borrow_global".as_slice() {
        Some(StorageOperation::BorrowGlobal)
    } else if word == b"borrow_global_mut".as_slice() {
        Some(StorageOperation::BorrowGlobalMut)
    } else if word == b"exists".as_slice() {
        Some(StorageOperation::Exists)
    } else {
        None
    }
}

/// Returns the function of `0x1::vector` that a word names.
pub fn vector_function(word: &[u8]) -> Option<VectorFunction>
    ensures { result ≡ vector_function word.now }
{
    if word == b"empty".as_slice() {
        Some(VectorFunction::Empty)
    } else if word == b"length".as_slice() {
        Some(VectorFunction::Length)
    } else if word == b"borrow".as_slice() {
        Some(VectorFunction::Borrow)
    } else if word == b"push_back".as_slice() {
        Some(VectorFunction::PushBack)
    } else if word == b"borrow_mut".as_slice() {
        Some(VectorFunction::BorrowMut)
    } else if word == b"pop_back".as_slice() {
        Some(VectorFunction::PopBack)
    } else if word == b"destroy_empty".as_slice() {
        Some(VectorFunction::DestroyEmpty)
    } else if word == b"swap".as_slice() {
        Some(VectorFunction::Swap)
    } else {
        None
    }
}

/// Returns the builtin function of specifications that a word names.
pub fn spec_builtin(word: &[u8]) -> Option<SpecBuiltin>
    ensures { result ≡ spec_builtin word.now }
{
    if word == b"len".as_slice() {
        Some(SpecBuiltin::Length)
    } else if word == b"old".as_slice() {
        Some(SpecBuiltin::Old)
    } else if word == b"exists".as_slice() {
        Some(SpecBuiltin::Exists)
    } else if word == b"global".as_slice() {
        Some(SpecBuiltin::Global)
    } else if word == b"in_range".as_slice() {
        Some(SpecBuiltin::InRange)
    } else {
        None
    }
}

/// Returns the builtin type that a word names, except `vector`; in specifications also `num`.
pub fn plain_type(is_spec: bool, word: &[u8]) -> Option<TypeTerm>
    ensures { result ≡ plain_type is_spec word.now }
{
    let node = if is_spec && word == b"num".as_slice() {
        TypeNode::Num
    } else if word == b"bool".as_slice() {
        TypeNode::Bool
    } else if word == b"u8".as_slice() {
        TypeNode::Int(Width::U8)
    } else if word == b"u16".as_slice() {
        TypeNode::Int(Width::U16)
    } else if word == b"u32".as_slice() {
        TypeNode::Int(Width::U32)
    } else if word == b"u64".as_slice() {
        TypeNode::Int(Width::U64)
    } else if word == b"u128".as_slice() {
        TypeNode::Int(Width::U128)
    } else if word == b"address".as_slice() {
        TypeNode::Address
    } else if word == b"signer".as_slice() {
        TypeNode::Signer
    } else {
        return None;
    };
    Some(TypeTerm { node })
}

/// Decides whether a member is `0x1::signer::address_of`.
fn is_address_of(member: &MemberId) -> bool
    ensures { result ≡ is_address_of member.now }
{
    member.owner.address == 1
        && member.owner.name.as_slice() == b"signer".as_slice()
        && member.name.as_slice() == b"address_of".as_slice()
}

/// Returns the callee that a function name means: a builtin of vectors or signers, or a declared function.
pub fn builtin_function(member: MemberId) -> Callee
    ensures { result ≡ builtin_function member }
{
    if is_address_of(&member) {
        return Callee::AddressOf;
    }
    if member.owner.address == 1 && member.owner.name.as_slice() == b"vector".as_slice() {
        if let Some(function) = vector_function(member.name.as_slice()) {
            return Callee::Vector(function);
        }
    }
    Callee::Function(member.into_function())
}

/// Returns the function of Move with this name, if specifications may call it.
pub fn spec_move_function(member: &MemberId) -> Option<SpecBuiltin>
    ensures { result ≡ spec_move_function member.now }
{
    if is_address_of(member) {
        Some(SpecBuiltin::AddressOf)
    } else {
        None
    }
}

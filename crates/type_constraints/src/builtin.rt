//! The signatures of functions of the language itself.

ghost use Rattle.std.specs.Prelude.{◌≡◌, map};
ghost use Rattle.typing_rules.specs.Settings.{address_signature, signature, storage_signature, vector_signature};
ghost use Rattle.typing_rules.specs.SpecConstraints.{builtin_signature};
ghost use Rattle.type_constraints.specs.Seen.{builtin_type};
ghost use Rattle.type_constraints.specs.Signatures.{seen_signature};

use crate::constraint::{BuiltinType, PlainType};
use base::types::Width;
use program::operator::{SpecBuiltin, StorageOperation, VectorFunction};

const BOOL: BuiltinType = BuiltinType::Plain(PlainType::Bool);

const U64: BuiltinType = BuiltinType::Plain(PlainType::Int(Width::U64));

const NUM: BuiltinType = BuiltinType::Plain(PlainType::Num);

const ADDRESS: BuiltinType = BuiltinType::Plain(PlainType::Address);

const NOTHING: BuiltinType = BuiltinType::Plain(PlainType::Nothing);

/// The number of type parameters, the types of the parameters, and the type of the result.
#[derive(Clone, Copy)]
pub struct BuiltinSignature {
    pub arity: usize,
    pub parameters: &'static [BuiltinType],
    pub returned: BuiltinType,
}

/// A signature over one type parameter.
fn over_item(parameters: &'static [BuiltinType], returned: BuiltinType) -> BuiltinSignature
    ensures { seen_signature result ≡ signature 1 (map builtin_type parameters.now) (builtin_type returned) }
{
    BuiltinSignature {
        arity: 1,
        parameters,
        returned,
    }
}

/// The signature of a storage operation.
pub fn of_storage(operation: StorageOperation) -> BuiltinSignature
    ensures { seen_signature result ≡ storage_signature operation }
{
    match operation {
        StorageOperation::MoveTo => {
            over_item(&[BuiltinType::SharedSigner, BuiltinType::Item], NOTHING)
        }
        StorageOperation::MoveFrom => over_item(&[ADDRESS], BuiltinType::Item),
        StorageOperation::BorrowGlobal => over_item(&[ADDRESS], BuiltinType::SharedItem),
        StorageOperation::BorrowGlobalMut => over_item(&[ADDRESS], BuiltinType::MutableItem),
        StorageOperation::Exists => over_item(&[ADDRESS], BOOL),
    }
}

/// The signature of a vector function.
pub fn of_vector(function: VectorFunction) -> BuiltinSignature
    ensures { seen_signature result ≡ vector_signature function }
{
    match function {
        VectorFunction::Empty => over_item(&[], BuiltinType::Vector),
        VectorFunction::Length => over_item(&[BuiltinType::SharedVector], U64),
        VectorFunction::Borrow => {
            over_item(&[BuiltinType::SharedVector, U64], BuiltinType::SharedItem)
        }
        VectorFunction::PushBack => {
            over_item(&[BuiltinType::MutableVector, BuiltinType::Item], NOTHING)
        }
        VectorFunction::BorrowMut => {
            over_item(&[BuiltinType::MutableVector, U64], BuiltinType::MutableItem)
        }
        VectorFunction::PopBack => over_item(&[BuiltinType::MutableVector], BuiltinType::Item),
        VectorFunction::DestroyEmpty => over_item(&[BuiltinType::Vector], NOTHING),
        VectorFunction::Swap => over_item(&[BuiltinType::MutableVector, U64, U64], NOTHING),
    }
}

/// The signature of `signer::address_of` in code.
pub fn of_address() -> BuiltinSignature
    ensures { seen_signature result ≡ address_signature }
{
    BuiltinSignature {
        arity: 0,
        parameters: &[BuiltinType::SharedSigner],
        returned: ADDRESS,
    }
}

/// The signature of a builtin function of specifications.
pub fn of_spec(builtin: SpecBuiltin) -> BuiltinSignature
    ensures { seen_signature result ≡ builtin_signature builtin }
{
    match builtin {
        SpecBuiltin::Old => over_item(&[BuiltinType::Item], BuiltinType::Item),
        SpecBuiltin::Length => over_item(&[BuiltinType::Vector], NUM),
        SpecBuiltin::InRange => over_item(&[BuiltinType::Vector, NUM], BOOL),
        SpecBuiltin::Exists => over_item(&[ADDRESS], BOOL),
        SpecBuiltin::Global => over_item(&[ADDRESS], BuiltinType::Item),
        SpecBuiltin::AddressOf => BuiltinSignature {
            arity: 0,
            parameters: &[BuiltinType::Signer],
            returned: ADDRESS,
        },
    }
}

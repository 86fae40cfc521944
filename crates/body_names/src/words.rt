//! The meaning of the words and signs that code and spec expressions share.

ghost use Rattle.std.specs.Prelude.{◌≡◌, ◌<◌, ◌^◌, length};
ghost use Rattle.syntax_tree.specs.TypeTreeData.{maybe_arguments_of};
ghost use Rattle.scopes.specs.Meanings.{IsMeaning, address_meaning};
ghost use Rattle.body_names.specs.SharedWords.{fields_meaning, number_meaning, operator_of, suffix_meaning};

use base::name::Name;
use base::types::Width;
use program::boxed::Boxed;
use program::code::{NamedFields, Number};
use program::operator::{Arithmetic, BinaryOperator, Bitwise, Comparison, Shift};
use program::sequence::Sequence;
use scopes::fault::NameFault;
use scopes::types::{TypeContext, type_arguments};
use std::alloc::Global;
use syntax_tree::operator::BinaryOperator as SourceOperator;
use syntax_tree::path::{Address, Path};
use syntax_tree::types::TypeArguments;
use tokens::token::{NumberLiteral, NumberSuffix};

/// Returns the binary operator that a sign means.
pub fn operator_of(operator: SourceOperator) -> BinaryOperator
    ensures { result ≡ operator_of operator }
{
    match operator {
        SourceOperator::Or => BinaryOperator::Or,
        SourceOperator::And => BinaryOperator::And,
        SourceOperator::Equal => BinaryOperator::Equal,
        SourceOperator::NotEqual => BinaryOperator::NotEqual,
        SourceOperator::Less => BinaryOperator::Comparison(Comparison::Less),
        SourceOperator::LessEqual => BinaryOperator::Comparison(Comparison::LessEqual),
        SourceOperator::Greater => BinaryOperator::Comparison(Comparison::Greater),
        SourceOperator::GreaterEqual => BinaryOperator::Comparison(Comparison::GreaterEqual),
        SourceOperator::BitOr => BinaryOperator::Bitwise(Bitwise::BitOr),
        SourceOperator::BitXor => BinaryOperator::Bitwise(Bitwise::BitXor),
        SourceOperator::BitAnd => BinaryOperator::Bitwise(Bitwise::BitAnd),
        SourceOperator::ShiftLeft => BinaryOperator::Shift(Shift::Left),
        SourceOperator::ShiftRight => BinaryOperator::Shift(Shift::Right),
        SourceOperator::Add => BinaryOperator::Arithmetic(Arithmetic::Add),
        SourceOperator::Subtract => BinaryOperator::Arithmetic(Arithmetic::Subtract),
        SourceOperator::Multiply => BinaryOperator::Arithmetic(Arithmetic::Multiply),
        SourceOperator::Divide => BinaryOperator::Arithmetic(Arithmetic::Divide),
        SourceOperator::Remainder => BinaryOperator::Arithmetic(Arithmetic::Remainder),
    }
}

/// Returns the type that the suffix of a number names, if it has one.
fn width_of(suffix: NumberSuffix) -> Result<Option<Width>, NameFault>
    ensures { IsMeaning result (suffix_meaning suffix) }
{
    match suffix {
        NumberSuffix::Absent => Ok(None),
        NumberSuffix::U8 => Ok(Some(Width::U8)),
        NumberSuffix::U16 => Ok(Some(Width::U16)),
        NumberSuffix::U32 => Ok(Some(Width::U32)),
        NumberSuffix::U64 => Ok(Some(Width::U64)),
        NumberSuffix::U128 => Ok(Some(Width::U128)),
        NumberSuffix::U256 => Err(NameFault::Unknown),
    }
}

/// Returns the value of a number with the type that its suffix names.
#[tactic(auto, unfolding(crate::specs::SharedWords::number_meaning))]
pub fn number(number: &NumberLiteral) -> Result<Number, NameFault>
    ensures { IsMeaning result (number_meaning number.now) }
{
    let width = width_of(number.suffix)?;
    Ok(Number {
        value: number.value,
        width,
    })
}

/// Returns the number of an address.
pub fn address(types: &TypeContext<'_>, address: &Address) -> Result<u128, NameFault>
    ensures { IsMeaning result (address_meaning types.now.environment.now address.now) }
{
    match types.environment.address(address) {
        Some(number) => Ok(number),
        None => Err(NameFault::Unknown),
    }
}

/// Returns a struct with these fields.
#[tactic(auto, unfolding(crate::specs::SharedWords::fields_meaning))]
pub fn named_fields(
    alloc: Global,
    types: &TypeContext<'_>,
    path: &Path,
    arguments: &Option<TypeArguments>,
    fields: Sequence<Name>,
) -> Result<Boxed<NamedFields>, NameFault>
    requires { length types.now.parameters.now < 2 ^ 32 }
    ensures { IsMeaning result (fields_meaning (record { environment = types.now.environment.now; parameters = types.now.parameters.now; is_spec = types.now.is_spec }) path.now (maybe_arguments_of arguments.now) fields) }
{
    let owner = types.environment.struct_named(alloc, path)?;
    let types = type_arguments(alloc, types, arguments)?;
    let boxed = Boxed::new(
        alloc,
        NamedFields {
            owner,
            types,
            fields,
        },
    )?;
    Ok(boxed)
}

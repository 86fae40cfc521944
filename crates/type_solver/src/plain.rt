//! The types of the language itself, so that terms can point at them.

ghost use Rattle.std.specs.Prelude.{◌≡◌, ℕ};
ghost use Rattle.type_constraints.specs.Seen.{plain_type};
ghost use Rattle.unification.specs.Slots.{Typing, value, TermWithin};
ghost use Rattle.base.specs.TypeData.{IntType};
ghost use Rattle.type_solver.specs.Plain.{ArePlain};

use base::types::{TypeNode, TypeTerm, Width};
use type_constraints::constraint::PlainType;
use unification::type_variables::slots::{Group, Term};

/// The types of the language itself. Terms point at them.
#[derive(Drop)]
pub struct PlainTypes {
    pub truth: TypeTerm,
    pub int_8: TypeTerm,
    pub int_16: TypeTerm,
    pub int_32: TypeTerm,
    pub int_64: TypeTerm,
    pub int_128: TypeTerm,
    pub number: TypeTerm,
    pub address: TypeTerm,
    pub signer: TypeTerm,
}

fn integer(width: Width) -> TypeTerm
    ensures { result ≡ IntType width }
{
    TypeTerm {
        node: TypeNode::Int(width),
    }
}

/// Returns the types of the language itself.
pub fn plain_types() -> PlainTypes
    ensures { ArePlain result }
{
    PlainTypes {
        truth: TypeTerm {
            node: TypeNode::Bool,
        },
        int_8: integer(Width::U8),
        int_16: integer(Width::U16),
        int_32: integer(Width::U32),
        int_64: integer(Width::U64),
        int_128: integer(Width::U128),
        number: TypeTerm {
            node: TypeNode::Num,
        },
        address: TypeTerm {
            node: TypeNode::Address,
        },
        signer: TypeTerm {
            node: TypeNode::Signer,
        },
    }
}

fn integer_type<'a>(types: &'a PlainTypes, width: Width) -> &'a TypeTerm
    requires { ArePlain types.now }
    ensures { result.now ≡ IntType width }
{
    match width {
        Width::U8 => &types.int_8,
        Width::U16 => &types.int_16,
        Width::U32 => &types.int_32,
        Width::U64 => &types.int_64,
        Width::U128 => &types.int_128,
    }
}

/// A type of the language itself, as a term.
pub fn plain_term<'a>(types: &'a PlainTypes, of: PlainType) -> Term<'a>
    requires { ArePlain types.now }
    ensures is { (t : Typing) → value t result ≡ plain_type of }
    ensures within { (n : ℕ) → TermWithin n result }
{
    match of {
        PlainType::Bool => Term::Closed(&types.truth),
        PlainType::Int(width) => Term::Closed(integer_type(types, width)),
        PlainType::Num => Term::Closed(&types.number),
        PlainType::Address => Term::Closed(&types.address),
        PlainType::Nothing => Term::Grouped(Group::Tuple, 0, 0),
    }
}

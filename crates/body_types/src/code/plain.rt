//! The types that terms of typing point at.

ghost use Rattle.std.specs.Prelude.{◌≡◌};
ghost use Rattle.typing_rules.specs.Settings.{unit_type};
ghost use Rattle.body_types.specs.Plain.{AreCodeTypes};

use base::types::{TypeList, TypeNode, TypeTerm};
use std::alloc::Global;
use type_solver::plain::{PlainTypes, plain_types};

/// The types of the language itself, and the unit type.
#[derive(Drop)]
pub struct CodeTypes {
    pub plain: PlainTypes,
    pub unit: TypeTerm,
}

fn unit_type(alloc: Global) -> TypeTerm
    ensures { result ≡ unit_type }
{
    TypeTerm {
        node: TypeNode::Tuple(TypeList {
            items: Vec::new(alloc),
        }),
    }
}

/// Returns the types that terms of typing point at. One table serves all functions and constants.
pub fn code_types(alloc: Global) -> CodeTypes
    ensures { AreCodeTypes result }
{
    CodeTypes {
        plain: plain_types(),
        unit: unit_type(alloc),
    }
}

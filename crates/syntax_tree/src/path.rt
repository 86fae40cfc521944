//! Addresses, names of modules, and paths.

use crate::lexeme::{Identifier, Numeral};

/// An address: a number, or a named address.
pub enum Address {
    Number(Numeral),
    Name(Identifier),
}

// A separate impl, so that each drop is a call and not the cases of all forms below it.
impl Drop for Address {
    fn drop(self) {
        match self {
            Address::Number(number) => drop(number),
            Address::Name(name) => drop(name),
        }
    }
}

/// A module by its address and name.
#[derive(Drop)]
pub struct ModuleName {
    pub address: Address,
    pub name: Identifier,
}

/// The name of a struct, a function, a constant, a local or a schema.
#[derive(Drop)]
pub enum Path {
    Name(Identifier),
    /// A name after that of an imported module.
    Member(Identifier, Identifier),
    /// A name after the full name of its module.
    Full(ModuleName, Identifier),
}

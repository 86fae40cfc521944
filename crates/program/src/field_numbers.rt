//! The numbers of fields, by look-ups in tables.

ghost use Rattle.std.specs.Prelude.{◌≡◌, IfOk};
ghost use Rattle.program.specs.FieldNumbers.{AreFieldNumbers, AreNumbers, field_number_in};

use crate::declaration::{Struct, TypedName};
use crate::table::Table;
use base::memory::NoMemory;
use base::name::Name;
use base::types::StructId;
use std::alloc::Global;

/// The number of each field of each struct of a program: how many fields of the struct are declared before it.
#[derive(Drop)]
pub struct FieldNumbers {
    /// For each struct, in order, the numbers of its fields by name.
    pub structs: Vec<Table<Name, usize>>,
}

/// Returns the numbers of the fields of one struct.
fn numbers_of(alloc: Global, fields: &[TypedName]) -> Result<Table<Name, usize>, NoMemory>
    ensures { IfOk result (AreNumbers fields.now) }
{
    let mut numbers = Table::new(alloc);
    for index in 0..fields.len() {
        numbers.put(fields[index].name.try_clone(alloc)?, index)?;
    }
    Ok(numbers)
}

impl FieldNumbers {
    /// Returns the numbers of the fields of all structs, and reads each field once.
    ///
    /// # Errors
    ///
    ///
    /// Only where there is not enough memory for the names and the numbers.
    pub fn new(alloc: Global, structs: &Table<StructId, Struct>) -> Result<FieldNumbers, NoMemory>
        ensures { IfOk result (AreFieldNumbers structs.now) }
    {
        let mut all = Vec::new(alloc);
        for number in 0..structs.len() {
            if let Some((_, one)) = structs.entry(number) {
                all.push(numbers_of(alloc, one.fields.as_slice())?)?;
            }
        }
        Ok(FieldNumbers { structs: all })
    }

    /// Returns the number of the field with this name of the struct; none if the program has no such struct, or the
    /// struct no such field. It takes two look-ups, for any number of fields.
    pub fn number(
        &self,
        structs: &Table<StructId, Struct>,
        owner: &StructId,
        name: &Name,
    ) -> Option<usize>
        requires { AreFieldNumbers structs.now self.now }
        ensures { result ≡ field_number_in structs.now owner.now name.now }
    {
        match structs.number(owner) {
            Some(index) => match self.structs.get(index) {
                Some(numbers) => numbers.get(name).copied(),
                None => None,
            },
            None => None,
        }
    }
}

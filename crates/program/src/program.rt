//! Programs, and the names of their declarations.

ghost use Rattle.std.specs.Prelude.{◌≡◌, [], IfOk};

use crate::declaration::{Constant, Function, Module, Schema, SpecFunction, Struct};
use crate::table::Table;
use base::memory::NoMemory;
use base::name::Name;
use base::types::{FunctionId, StructId};
use std::alloc::Global;

/// A module by its address, below 2^128, and its name.
#[derive(PartialEq, Eq, Hash, Drop)]
pub struct ModuleId {
    pub address: u128,
    pub name: Name,
}

/// A constant by its address, below 2^128, its module and its name.
#[derive(PartialEq, Eq, Hash, Drop)]
pub struct ConstantId {
    pub address: u128,
    pub module: Name,
    pub name: Name,
}

/// A schema by its address, below 2^128, its module and its name.
#[derive(PartialEq, Eq, Hash, Drop)]
pub struct SchemaId {
    pub address: u128,
    pub module: Name,
    pub name: Name,
}

impl ModuleId {
    /// Returns a copy of the name of a module.
    pub fn try_clone(&self, alloc: Global) -> Result<ModuleId, NoMemory>
        ensures { IfOk result (λ copy. copy ≡ self.now) }
    {
        Ok(ModuleId {
            address: self.address,
            name: self.name.try_clone(alloc)?,
        })
    }
}

impl ConstantId {
    /// Returns a copy of the name of a constant.
    pub fn try_clone(&self, alloc: Global) -> Result<ConstantId, NoMemory>
        ensures { IfOk result (λ copy. copy ≡ self.now) }
    {
        Ok(ConstantId {
            address: self.address,
            module: self.module.try_clone(alloc)?,
            name: self.name.try_clone(alloc)?,
        })
    }
}

impl SchemaId {
    /// Returns a copy of the name of a schema.
    pub fn try_clone(&self, alloc: Global) -> Result<SchemaId, NoMemory>
        ensures { IfOk result (λ copy. copy ≡ self.now) }
    {
        Ok(SchemaId {
            address: self.address,
            module: self.module.try_clone(alloc)?,
            name: self.name.try_clone(alloc)?,
        })
    }
}

/// A program: the declarations of its files by kind, in the order of the files and of their text.
#[derive(Drop)]
pub struct Program {
    pub modules: Table<ModuleId, Module>,
    pub structs: Table<StructId, Struct>,
    pub constants: Table<ConstantId, Constant>,
    pub functions: Table<FunctionId, Function>,
    pub spec_functions: Table<FunctionId, SpecFunction>,
    pub schemas: Table<SchemaId, Schema>,
}

impl Program {
    /// Returns the program without declarations.
    pub fn new(alloc: Global) -> Program
        ensures modules { result.modules ≡ [] }
        ensures structs { result.structs ≡ [] }
        ensures constants { result.constants ≡ [] }
        ensures functions { result.functions ≡ [] }
        ensures spec_functions { result.spec_functions ≡ [] }
        ensures schemas { result.schemas ≡ [] }
    {
        Program {
            modules: Table::new(alloc),
            structs: Table::new(alloc),
            constants: Table::new(alloc),
            functions: Table::new(alloc),
            spec_functions: Table::new(alloc),
            schemas: Table::new(alloc),
        }
    }
}

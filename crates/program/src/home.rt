//! The modules that declare structs, constants, functions and schemas.

ghost use Rattle.std.specs.Prelude.{◌≡◌, ◌↔◌, IsTrue, IfOk};
ghost use Rattle.program.specs.Homes.{constant_home, function_home, schema_home, struct_home};

use crate::program::{ConstantId, ModuleId, SchemaId};
use base::memory::NoMemory;
use base::name::Name;
use base::types::{FunctionId, StructId};
use std::alloc::Global;
use std::marker::Model;

/// The name of a module, borrowed from that of one of its members.
#[derive(Drop)]
pub struct Home<'a> {
    address: u128,
    name: &'a Name,
}

impl<'a> Model for Home<'a> {
    ghost use Rattle.program.specs.declared.program.ModuleId.{ModuleId};

    ghost Value = { ModuleId };

    ghost view = { λ h. record { address = h.address; name = h.name.now } };
}

impl<'a> Home<'a> {
    /// Returns the module of a struct.
    pub fn of_struct(id: &'a StructId) -> Home<'a>
        ensures { result ≡ struct_home id.now }
    {
        Home {
            address: id.address,
            name: &id.module,
        }
    }

    /// Returns the module of a constant.
    pub fn of_constant(id: &'a ConstantId) -> Home<'a>
        ensures { result ≡ constant_home id.now }
    {
        Home {
            address: id.address,
            name: &id.module,
        }
    }

    /// Returns the module of a function or of a spec function.
    pub fn of_function(id: &'a FunctionId) -> Home<'a>
        ensures { result ≡ function_home id.now }
    {
        Home {
            address: id.address,
            name: &id.module,
        }
    }

    /// Returns the module of a schema.
    pub fn of_schema(id: &'a SchemaId) -> Home<'a>
        ensures { result ≡ schema_home id.now }
    {
        Home {
            address: id.address,
            name: &id.module,
        }
    }

    /// Decides whether it is this module.
    pub fn is(&self, other: &ModuleId) -> bool
        ensures { IsTrue result ↔ (self.now ≡ other.now) }
    {
        self.address == other.address && *self.name == other.name
    }

    /// Returns an owned copy of its name.
    pub fn to_id(&self, alloc: Global) -> Result<ModuleId, NoMemory>
        ensures { IfOk result (λ id. id ≡ self.now) }
    {
        Ok(ModuleId {
            address: self.address,
            name: self.name.try_clone(alloc)?,
        })
    }
}

//! The members that modules declare.

ghost use Rattle.std.specs.Prelude.{◌≡◌, IfOk};

use base::memory::NoMemory;
use base::name::Name;
use base::types::{FunctionId, StructId};
use program::program::{ConstantId, ModuleId, SchemaId};
use std::alloc::Global;

/// The kinds of declarations. Names are separate for each kind: a struct and a schema may share one, and so may a
/// function and a spec function.
#[derive(Clone, Copy, Debug, PartialEq, Eq, Hash)]
pub enum MemberKind {
    Struct,
    Constant,
    Function,
    SpecFunction,
    Schema,
}

/// A member, by its module and its name.
#[derive(PartialEq, Eq, Hash, Drop)]
pub struct MemberId {
    pub owner: ModuleId,
    pub name: Name,
}

/// A declaration: a member and its kind.
#[derive(PartialEq, Eq, Hash, Drop)]
pub struct Declaration {
    pub kind: MemberKind,
    pub member: MemberId,
}

/// A name, for a member of this kind.
#[derive(PartialEq, Eq, Hash, Drop)]
pub struct NameOfKind {
    pub kind: MemberKind,
    pub name: Name,
}

impl MemberId {
    /// Copies the name of a member.
    pub fn try_clone(&self, alloc: Global) -> Result<MemberId, NoMemory>
        ensures { IfOk result (λ copy. copy ≡ self.now) }
    {
        Ok(MemberId {
            owner: self.owner.try_clone(alloc)?,
            name: self.name.try_clone(alloc)?,
        })
    }

    /// Converts the name to that of a struct.
    pub fn into_struct(self) -> StructId
        ensures { result ≡ record { address = self.owner.address; «module» = self.owner.name; name = self.name } }
    {
        let MemberId { owner, name } = self;
        let ModuleId {
            address,
            name: owner_name,
        } = owner;
        StructId {
            address,
            module: owner_name,
            name,
        }
    }

    /// Converts the name to that of a constant.
    pub fn into_constant(self) -> ConstantId
        ensures { result ≡ record { address = self.owner.address; «module» = self.owner.name; name = self.name } }
    {
        let MemberId { owner, name } = self;
        let ModuleId {
            address,
            name: owner_name,
        } = owner;
        ConstantId {
            address,
            module: owner_name,
            name,
        }
    }

    /// Converts the name to that of a function or a spec function.
    pub fn into_function(self) -> FunctionId
        ensures { result ≡ record { address = self.owner.address; «module» = self.owner.name; name = self.name } }
    {
        let MemberId { owner, name } = self;
        let ModuleId {
            address,
            name: owner_name,
        } = owner;
        FunctionId {
            address,
            module: owner_name,
            name,
        }
    }

    /// Converts the name to that of a schema.
    pub fn into_schema(self) -> SchemaId
        ensures { result ≡ record { address = self.owner.address; «module» = self.owner.name; name = self.name } }
    {
        let MemberId { owner, name } = self;
        let ModuleId {
            address,
            name: owner_name,
        } = owner;
        SchemaId {
            address,
            module: owner_name,
            name,
        }
    }
}

//! The targets of spec blocks with a name.

ghost use Rattle.scopes.specs.Meanings.{IsMeaning};
ghost use Rattle.resolution.specs.SpecTargets.{target_meaning};

use base::name::Name;
use base::types::{FunctionId, StructId};
use scopes::environment::Environment;
use scopes::fault::NameFault;
use scopes::member::MemberKind;
use std::alloc::Global;

/// The target of a spec block with a name.
#[derive(Drop)]
pub enum SpecTarget {
    Function(FunctionId),
    Struct(StructId),
}

/// Returns the target of a spec block with this name: the function that the module declares, or else the struct.
pub fn target_named(
    alloc: Global,
    environment: &Environment,
    name: &Name,
) -> Result<SpecTarget, NameFault>
    ensures { IsMeaning result (target_meaning environment.now name.now) }
{
    let own = environment.own().try_clone(alloc)?;
    match environment.declared_member(alloc, MemberKind::Function, own, name) {
        Ok(member) => Ok(SpecTarget::Function(member.into_function())),
        Err(NameFault::NoMemory) => Err(NameFault::NoMemory),
        Err(NameFault::Unknown) => {
            let own = environment.own().try_clone(alloc)?;
            let member = environment.declared_member(alloc, MemberKind::Struct, own, name)?;
            Ok(SpecTarget::Struct(member.into_struct()))
        }
    }
}

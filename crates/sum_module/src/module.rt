//! Modules whose members are all of the supported form.

ghost use Rattle.std.specs.Prelude.{◌≡◌, [], None, Some, MatchResult};
ghost use Rattle.sum_module.specs.Built.{IsBuilt, IsFirstUnbuilt, IsUnbuiltAt, address_of};
ghost use Rattle.sum_module.specs.Fault.{IfNotBuiltAt};
ghost use Rattle.sum_module.specs.Members.{AreMembers};

use crate::fault::ModuleFault;
use crate::member::{SumMember, read_member};
use crate::parameters::parameters_in;
use crate::seen::Seen;
use base::name::Name;
use std::alloc::Global;
use std::marker::Model;
use sum_read::fault::FormFault;
use syntax_tree::path::Address;
use syntax_tree::source::spans::{form_span, module_span};
use syntax_tree::source::{SourceMember, SourceModule};

/// A module whose members are all of the supported form.
#[derive(Drop)]
pub struct BuiltModule {
    pub address: u128,
    pub name: Name,
    pub members: Vec<SumMember>,
}

impl Model for BuiltModule {
    ghost use Rattle.std.specs.Coded.{codes};
    ghost use Rattle.sum_tree.specs.SumData.{coded_sum};
    ghost use Rattle.sum_module.specs.BuiltModuleData.{BuiltModuleData};

    ghost Value = { BuiltModuleData };

    ghost coded = { Prim.hlevel (codes, coded_sum) };

    ghost view = { λ m. record { address = m.address; name = m.name; members = m.members.items } };
}

/// Reads the members of a module.
fn read_members(alloc: Global, members: &[SourceMember]) -> Result<Vec<SumMember>, ModuleFault>
    ensures { MatchResult result (λ found. AreMembers members.now [] members.now found.items) (λ fault. IfNotBuiltAt fault (IsFirstUnbuilt members.now)) }
{
    let parameters = parameters_in(alloc, members)?;
    let mut seen = Seen::new(alloc);
    let mut found = Vec::new(alloc);
    for member in members {
        match read_member(alloc, &parameters, &seen, &member.form) {
            Ok(read) => found.push(read)?,
            Err(FormFault::NotBuilt) => {
                return Err(ModuleFault::NotBuilt(form_span(&member.form).start));
            }
            Err(FormFault::NoMemory) => return Err(ModuleFault::NoMemory),
        }
        seen.add(alloc, &member.form)?;
    }
    Ok(found)
}

/// The address of a module, if it is a number.
fn address_of(address: &Address) -> Option<u128>
    ensures { result ≡ address_of address.now }
{
    match address {
        Address::Number(number) => Some(number.literal.value),
        Address::Name(_) => None,
    }
}

/// Reads a module.
///
/// # Errors
///
/// `NotBuilt` if and only if the module is not of the supported form, with the offset of its own first token if its
/// address is no number, and otherwise with that of the first member that is not.
pub fn read_module(alloc: Global, source_module: &SourceModule) -> Result<BuiltModule, ModuleFault>
    ensures { MatchResult result (IsBuilt source_module.now) (λ fault. IfNotBuiltAt fault (IsUnbuiltAt source_module.now)) }
{
    let Some(address) = address_of(&source_module.name.address) else {
        return Err(ModuleFault::NotBuilt(module_span(source_module).start));
    };
    let members = read_members(alloc, &source_module.members)?;
    Ok(BuiltModule {
        address,
        name: source_module.name.name.text.try_clone(alloc)?,
        members,
    })
}

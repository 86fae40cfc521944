//! The types at which a module may use global storage.

ghost use Rattle.std.specs.Prelude.{◌≡◌, ◌↔◌, List, IsTrue, slice_get};
ghost use Rattle.base.specs.TypeData.{TypeData};
ghost use Rattle.program.specs.StorageTypes.{TypeIsVisible, key_of};
ghost use Rattle.typing_rules.specs.Pools.{type_of};

use program::declaration::TypeParameter;
use program::home::Home;
use program::program::ModuleId;
use typing_rules::type_pool::{PlainType, PoolType};

/// Decides whether the type parameter with this number exists and has key.
fn has_key(types: &[TypeParameter], number: u32) -> bool
    ensures { result ≡ key_of (slice_get types.now number) }
{
    match types.get(number as usize) {
        Some(parameter) => parameter.abilities.has_key,
        None => false,
    }
}

/// Decides whether the module may use global storage at a type.
pub(crate) fn is_visible(own: &ModuleId, types: &[TypeParameter], of: &PoolType) -> bool
    ensures { (ts : List TypeData) → IsTrue result ↔ TypeIsVisible own.now types.now (type_of ts of.now) }
{
    match of {
        PoolType::Plain(plain) => match plain {
            PlainType::Param(number) => !has_key(types, *number),
            _ => true,
        },
        PoolType::Made(_, _) => true,
        PoolType::Struct(id, _) => Home::of_struct(id).is(own),
        PoolType::Tuple(_) => true,
    }
}

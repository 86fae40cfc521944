//! The visibility of functions.

ghost use Rattle.std.specs.Prelude.{◌≡◌, ◌↔◌, Contains, IsTrue};
ghost use Rattle.scopes.specs.Visibility.{MayCall};

use program::declaration::Visibility;
use program::program::ModuleId;

/// Decides whether two names of modules are equal.
pub fn same_module(left: &ModuleId, right: &ModuleId) -> bool
    ensures { IsTrue result ↔ (left.now ≡ right.now) }
{
    left.address == right.address && left.name == right.name
}

/// Decides whether a module is among others.
fn is_among(modules: &[ModuleId], sought: &ModuleId) -> bool
    ensures { IsTrue result ↔ Contains modules.now sought.now }
{
    modules.contains(sought)
}

/// Decides whether a function can be called in the module `from`, given its own module, its visibility and the friends
/// of its module.
pub fn may_call(
    from: &ModuleId,
    owner: &ModuleId,
    visibility: Visibility,
    friends: &[ModuleId],
) -> bool
    ensures { IsTrue result ↔ MayCall from.now owner.now visibility friends.now }
{
    match visibility {
        Visibility::Private => same_module(from, owner),
        Visibility::Friend => same_module(from, owner) || is_among(friends, from),
        Visibility::Public => true,
    }
}

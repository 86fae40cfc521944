//! The context of a body.

ghost use Rattle.std.specs.Prelude.{◌<◌, ◌^◌, length};

use scopes::types::TypeContext;
use std::alloc::Global;

/// The context of a body: the meaning of names in its module, and the names of its type parameters.
#[derive(Drop)]
pub struct Context<'a> {
    pub alloc: Global,
    pub types: TypeContext<'a>,
    ghost few: { length types.parameters.now < 2 ^ 32 },
}

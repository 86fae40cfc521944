//! The context of a spec expression.

ghost use Rattle.std.specs.Prelude.{◌≡◌, ◌<◌, ◌^◌, length, true};

use crate::spec::outer::Outer;
use scopes::types::TypeContext;
use std::alloc::Global;

/// The context of a spec expression: the meaning of names in its module, the names of the type parameters in scope, and
/// the names around the expression.
#[derive(Drop)]
pub struct Context<'a> {
    pub alloc: Global,
    pub types: TypeContext<'a>,
    pub outer: &'a Outer,
    ghost few: { length types.parameters.now < 2 ^ 32 },
    ghost is_spec: { types.is_spec ≡ true },
}

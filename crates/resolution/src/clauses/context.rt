//! The context of the clauses of specifications.

ghost use Rattle.std.specs.Prelude.{◌≡◌, ◌<◌, ◌^◌, length, true};

use body_names::spec::name_list::NameList;
use program::program::SchemaId;
use program::table::Table;
use scopes::types::TypeContext;
use std::alloc::Global;

/// The context of the clauses of specifications: the meaning of names in their module, the names of the type parameters
/// in scope, and the names of the variables of each declared schema, in order.
#[derive(Clone, Copy)]
pub struct ClauseContext<'a> {
    pub alloc: Global,
    pub types: TypeContext<'a>,
    pub schemas: &'a Table<SchemaId, NameList>,
    ghost few: { length types.parameters.now < 2 ^ 32 },
    ghost is_spec: { types.is_spec ≡ true },
}

//! The context in which calls are examined.

use base::types::StructId;
use program::program::{ModuleId, Program};
use program::table::Table;
use typing_rules::type_pool::TypePool;

/// A program, the module of a function, the set of structs that the function lists, and the numbers in the pool of the
/// types of its type variables.
#[derive(Clone, Copy)]
pub(crate) struct Look<'a> {
    pub program: &'a Program,
    pub own: &'a ModuleId,
    pub listed: &'a Table<StructId, ()>,
    pub pool: &'a TypePool,
    pub variables: &'a [usize],
}

//! The types of a typed function's type variables.

use typing_rules::type_pool::TypePool;

/// For each type variable of a function (its nodes, its locals, the type arguments of its nodes) the number of its type
/// in a pool.
#[derive(Clone, Copy)]
pub struct FunctionTypes<'a> {
    pub pool: &'a TypePool,
    pub types: &'a [usize],
}

//! What is known of the types of a function's type variables.

use typing_rules::type_pool::TypePool;

/// For each type variable of a function (its nodes, its locals, the type arguments of its nodes) the number of its type
/// in a pool, and none where its type is not determined; and the number of nodes that are read, which are the first
/// ones, if there are typings.
#[derive(Clone, Copy)]
pub struct VariableTypes<'a> {
    pub pool: &'a TypePool,
    pub types: &'a [Option<usize>],
    pub read: usize,
}

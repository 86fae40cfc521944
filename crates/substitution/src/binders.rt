//! The binders around an occurrence, as a linked list on the stack, so that the tests allocate no memory.

/// The binders around an occurrence in a formula and in its instance.
#[derive(Clone, Copy)]
pub enum Binders<'a> {
    /// No binder.
    Top,
    /// Within these binders, the innermost one: the number that it binds in the formula, and the one in the instance.
    Inside(&'a Binders<'a>, u32, u32),
}

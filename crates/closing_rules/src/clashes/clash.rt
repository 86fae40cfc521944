//! Clashes of the entries of a branch.

/// A clash of a branch up to congruence.
#[derive(Clone, Copy, Debug, PartialEq, Eq)]
pub enum Clash {
    /// The second entry negates the formula of the first one.
    Opposed(usize, usize),
    /// The entry negates an equation of two equal terms.
    Differing(usize),
    /// The entry cannot be true by its form.
    False(usize),
}

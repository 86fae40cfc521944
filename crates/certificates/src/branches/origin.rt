//! The origin of the entries of a branch.

/// The rule that added an entry.
#[derive(Clone, Copy, Debug, PartialEq, Eq)]
pub enum Origin {
    /// The delta rule (Skolem name), for the variable that the entry with this number binds.
    Name(u32),
    /// Any other rule, or none for the first entry.
    Other,
}

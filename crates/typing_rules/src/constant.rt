//! The values of constants.

use base::types::Width;

/// The value of a constant (The Move Book, "Constants").
#[derive(Clone, Copy, Debug, PartialEq, Eq)]
pub enum ConstantValue {
    /// A value of the integer type of this width.
    Integer(Width, u128),
    Boolean(bool),
    /// An address.
    Place(u128),
}

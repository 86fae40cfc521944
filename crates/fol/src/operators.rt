//! The operators of terms and formulas, by their arity.

use base::types::Width;

/// The terms without children, except variables.
#[derive(Clone, Copy, Debug, PartialEq, Eq)]
pub enum Constant {
    /// The integer.
    Num(i128),
    /// The greatest `u128`, 2^128 - 1.
    Max,
    True,
    False,
    /// The value that no Move value equals.
    Nothing,
    /// The memory without entries.
    Blank,
    /// The vector without items.
    Empty,
    /// The natural number, for those that are in the range of no other constant.
    Wide(u128),
}

/// The operators with one term.
#[derive(Clone, Copy, Debug, PartialEq, Eq)]
pub enum Unary {
    /// The number of items of a vector.
    Len,
    /// A vector without its last item.
    Pop,
}

/// The operators with two terms.
#[derive(Clone, Copy, Debug, PartialEq, Eq)]
pub enum Binary {
    Add,
    Sub,
    Mul,
    /// The quotient, rounded down; 0 where the divisor is 0.
    Div,
    /// The remainder: the dividend minus the divisor times the quotient.
    Mod,
    /// Bitwise, as are `Or` and `Xor`.
    And,
    Or,
    Xor,
    /// The left shift within the width.
    Shl(Width),
    /// The right shift.
    Shr(Width),
    /// The value of a memory at a key.
    Select,
    /// The item of a vector at an index, counted from 0.
    At,
    /// A vector with one more item at its end.
    Push,
}

/// The operators with three terms.
#[derive(Clone, Copy, Debug, PartialEq, Eq)]
pub enum Ternary {
    /// A memory with a value written at a key.
    Store,
    /// A vector with the item at an index replaced.
    Set,
}

/// The relations between two terms.
#[derive(Clone, Copy, Debug, PartialEq, Eq)]
pub enum Comparison {
    /// The terms have the same value.
    Eq,
    /// The first number is at most the second.
    Le,
}

/// The operators with any number of formulas.
#[derive(Clone, Copy, Debug, PartialEq, Eq)]
pub enum Junction {
    /// All of them are true.
    AllOf,
    /// At least one of them is true.
    AnyOf,
}

/// The operators with two formulas.
#[derive(Clone, Copy, Debug, PartialEq, Eq)]
pub enum Connective {
    Implies,
    Iff,
}

/// How a variable is bound.
#[derive(Clone, Copy, Debug, PartialEq, Eq)]
pub enum Quantifier {
    /// True for each value of the variable.
    ForAll,
    /// True for some value of the variable.
    Exists,
}

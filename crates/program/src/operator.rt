//! Operators, grouped by their typing rules.

/// An operator between two integers of one type, whose result has that type.
#[derive(Clone, Copy, Debug, PartialEq, Eq)]
pub enum Arithmetic {
    Add,
    Subtract,
    Multiply,
    Divide,
    Remainder,
}

/// A bitwise operator.
#[derive(Clone, Copy, Debug, PartialEq, Eq)]
pub enum Bitwise {
    BitAnd,
    BitOr,
    BitXor,
}

/// A shift by a `u8`.
#[derive(Clone, Copy, Debug, PartialEq, Eq)]
pub enum Shift {
    Left,
    Right,
}

/// A comparison of two integers of one type.
#[derive(Clone, Copy, Debug, PartialEq, Eq)]
pub enum Comparison {
    Less,
    LessEqual,
    Greater,
    GreaterEqual,
}

/// An operator between two expressions of Move.
#[derive(Clone, Copy, Debug, PartialEq, Eq)]
pub enum BinaryOperator {
    Arithmetic(Arithmetic),
    Bitwise(Bitwise),
    Shift(Shift),
    Comparison(Comparison),
    Equal,
    NotEqual,
    And,
    Or,
}

/// An operator between two spec expressions.
#[derive(Clone, Copy, Debug, PartialEq, Eq)]
pub enum SpecOperator {
    /// An operator of Move.
    Common(BinaryOperator),
    /// `==>`
    Implies,
    /// `<==>`
    Equivalent,
    /// `..`
    Range,
}

/// A quantifier.
#[derive(Clone, Copy, Debug, PartialEq, Eq)]
pub enum Quantifier {
    ForAll,
    Exists,
}

/// An operation on global storage (The Move Book, "Global Storage Operators").
#[derive(Clone, Copy, Debug, PartialEq, Eq)]
pub enum StorageOperation {
    MoveTo,
    MoveFrom,
    BorrowGlobal,
    BorrowGlobalMut,
    Exists,
}

/// A function of `0x1::vector` (The Move Book, "Vector").
#[derive(Clone, Copy, Debug, PartialEq, Eq)]
pub enum VectorFunction {
    Empty,
    Length,
    Borrow,
    PushBack,
    BorrowMut,
    PopBack,
    DestroyEmpty,
    Swap,
}

/// A builtin function of specifications.
#[derive(Clone, Copy, Debug, PartialEq, Eq)]
pub enum SpecBuiltin {
    Old,
    Length,
    InRange,
    Exists,
    Global,
    /// `signer::address_of`
    AddressOf,
}

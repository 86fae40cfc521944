//! The names of the axioms, grouped by the form of their statements.

/// An axiom.
#[derive(Clone, Copy, Debug, PartialEq, Eq)]
pub enum Axiom {
    /// Two terms are equal.
    Equal(Equation),
    /// Two terms are equal unless a formula is true.
    EqualUnless(Exception),
    /// Some of a list of formulas is true.
    Cases(Alternative),
    /// One formula implies another.
    Implied(Rule),
    /// Two formulas are equivalent.
    Exactly(Equivalence),
    /// A formula of another form.
    Plain(Fact),
    /// A formula on a struct type that has a shape.
    OfStruct(StructAxiom),
}

/// The axioms that state an equation between two terms.
#[derive(Clone, Copy, Debug, PartialEq, Eq)]
pub enum Equation {
    /// A term is equal to itself.
    Itself,
    /// The value of a memory at the key where it was stored.
    SelectStored,
    /// The memory without entries has `Nothing` at each key.
    SelectBlank,
    /// The vector without items has length 0.
    LenEmpty,
    /// A vector with one more item is longer by 1.
    LenPush,
    /// The item that was pushed at a vector's end.
    AtPushed,
    /// Replacing an item does not change the length.
    LenSet,
    /// The definition of the remainder.
    Remainder,
    /// The quotient by 0 is 0.
    DivByZero,
    /// Multiplication is commutative.
    MulTurned,
    /// A product with 1.
    MulByOne,
    /// A product with 0.
    MulByZero,
}

/// The axioms that state that two terms are equal unless a formula is true.
#[derive(Clone, Copy, Debug, PartialEq, Eq)]
pub enum Exception {
    /// The value of a memory at a key other than the one that was stored at.
    SelectOther,
    /// The items before the one that was pushed at a vector's end.
    AtOtherPushed,
    /// A vector without its last item is shorter by 1, unless it has no items.
    LenPopped,
    /// The items before the one that was popped from a vector's end.
    AtPopped,
    /// An item other than the one that was replaced.
    AtOtherSet,
}

/// The axioms that state a disjunction. The last disjunct holds when those before it do not.
#[derive(Clone, Copy, Debug, PartialEq, Eq)]
pub enum Alternative {
    /// The item that was written at an index of a vector.
    AtSet,
    /// Vectors of one type, of one length and with the same items are equal (extensionality).
    SameItems,
    /// The value of a choice between two terms.
    Choice,
    /// Two whole numbers are equal, or one of them is at most the other minus 1.
    Trichotomy,
}

/// The axioms that state an implication.
#[derive(Clone, Copy, Debug, PartialEq, Eq)]
pub enum Rule {
    /// The items of a vector have its item type.
    ItemTyped,
    /// A vector has at most 2^64 - 1 items.
    LenBounded,
    /// A vector keeps its type when an item of the item type is written into it.
    SetTyped,
    /// A vector keeps its type when an item of the item type is pushed and there is room.
    PushTyped,
    /// A vector keeps its type when its last item is popped.
    PopTyped,
    /// Bitwise operators stay within the width of their operands.
    BitsTyped,
    /// A right shift stays within the width.
    ShrTyped,
}

/// The axioms that state an equivalence.
#[derive(Clone, Copy, Debug, PartialEq, Eq)]
pub enum Equivalence {
    /// A term has an integer type, or the type of addresses or signers, exactly when it is a whole number from 0 to
    /// the greatest of the type.
    Range,
    /// A term has the type of truth values exactly when it is `True` or `False`.
    BoolTyped,
}

/// The axioms of other forms.
#[derive(Clone, Copy, Debug, PartialEq, Eq)]
pub enum Fact {
    /// A length is at least 0.
    LenFromZero,
    /// The bounds of a quotient by a numeral from 1.
    QuotientBounds,
    /// The greatest `u128` is at least 2^126.
    MaxBound,
    /// Numerals, lengths, and the results of arithmetic and bitwise operators are whole numbers.
    Whole,
    /// The vector without items has every vector type.
    EmptyTyped,
    /// A left shift stays within the width.
    ShlTyped,
    /// `Nothing` has no type.
    NothingUntyped,
    /// `True` is not `False`.
    TruthsDiffer,
    /// `True` holds.
    TrueHolds,
    /// `False` does not hold.
    FalseFails,
    /// `Nothing` does not hold.
    NothingFails,
}

/// The axioms on struct types, whose fields are given by their shapes.
#[derive(Clone, Copy, Debug, PartialEq, Eq)]
pub enum StructAxiom {
    /// A field of a struct that is packed from its fields.
    FieldOfPack,
    /// The field that was replaced.
    FieldSet,
    /// A field other than the one that was replaced.
    FieldOfOther,
    /// A struct is packed from its fields.
    PackOfFields,
    /// A struct that is packed from its fields has its type exactly when each field has its own.
    PackTyped,
    /// A field of a struct has the field's type.
    FieldTyped,
}

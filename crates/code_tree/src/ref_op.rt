//! The operations of code with references. They are those of Move with what types say put into them: widths, numbers
//! of fields, types of resources. An item is a value or a reference, and an operation works on the items that it is
//! given, in their order.

use crate::code::{Code, Instance};
use base::types::{TypeTerm, Width};
use program::boxed::Boxed;
use program::operator::{Arithmetic, Bitwise, Comparison, Shift, StorageOperation, VectorFunction};
use program::sequence::Sequence;

/// A value that is written in the code.
#[derive(Clone, Copy)]
pub enum Literal {
    /// An integer, or an address.
    Number(u128),
    Truth(bool),
}

/// A reference is shared or mutable.
#[derive(Clone, Copy)]
pub enum Access {
    Shared,
    Mutable,
}

/// A local, or a field of it, a field of that field, and so on, by their numbers.
#[derive(Drop)]
pub struct LocalPlace {
    pub local: u32,
    pub fields: Sequence<u32>,
}

/// A local that a pattern binds, and which part of the items it gets: of the item with this number a field, a field of that
/// field, and so on.
#[derive(Drop)]
pub struct Binding {
    pub local: u32,
    pub item: u32,
    pub fields: Sequence<u32>,
}

/// What the caller knows of a function: the types of its parameters and results, and the resource types that it or its
/// callees may read and may change.
#[derive(Drop)]
pub struct CallSite {
    pub callee: Instance,
    pub parameters: Sequence<TypeTerm>,
    pub results: Sequence<TypeTerm>,
    pub reach: Sequence<TypeTerm>,
    pub changes: Sequence<TypeTerm>,
}

#[derive(Drop)]
pub enum RefOp {
    // ---- on no items
    Literal(Literal),
    /// The item that a local holds; the local keeps it, or is empty then.
    Copy(u32),
    Move(u32),
    /// A copy of the value of a place, and a reference to the place.
    ReadPlace(LocalPlace),
    BorrowPlace(Access, LocalPlace),
    /// These locals hold nothing.
    Declare(Sequence<u32>),

    // ---- on values
    Not,
    Arithmetic(Arithmetic, Width),
    Bitwise(Bitwise),
    Shift(Shift, Width),
    Compare(Comparison),
    Cast(Width),
    /// The field with this number of a struct.
    Field(u32),
    /// A struct of this type. For each of its fields in order the number of the item that it gets.
    Pack(Boxed<TypeTerm>, Sequence<u32>),
    /// A vector of the items.
    Vector,
    /// The code is aborted with this number.
    Abort,

    // ---- on values or references
    /// Whether two values are equal, or what two references point to.
    Equal,
    NotEqual,
    /// The items are let go.
    Drop,
    /// A place of a local gets the item.
    AssignPlace(LocalPlace),
    /// The locals of a pattern get parts of the items.
    Bind(Sequence<Binding>),

    // ---- on references
    /// The value that a reference points to.
    Read,
    /// The place that the second item points to gets the first item.
    Write,
    /// A reference to the field with this number of what a reference points to.
    BorrowField(Access, u32),
    /// A shared reference to what a mutable one points to.
    Freeze,
    /// The local, a temporary, gets the value, and a reference to it is given.
    BorrowTemporary(Access, u32),

    // ---- calls
    VectorCall(VectorFunction, Boxed<TypeTerm>),
    StorageCall(StorageOperation, Boxed<TypeTerm>),
    /// `signer::address_of`
    AddressOf,
    Call(Boxed<CallSite>),
}

/// What a loop invariant reads.
#[derive(Drop)]
pub enum RefRead {
    /// A local, or what it points to.
    Local(u32),
    /// All stored values of a type.
    Resource(Boxed<TypeTerm>),
}

pub type RefCode = Code<RefOp, RefRead>;

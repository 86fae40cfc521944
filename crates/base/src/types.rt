//! Types of Move, and the names of structs.

use crate::name::Name;
use std::marker::Model;

/// A function by its address, below 2^128, its module and its name.
#[derive(PartialEq, Eq, Hash, Drop)]
pub struct FunctionId {
    pub address: u128,
    pub module: Name,
    pub name: Name,
}

/// A struct by its address, below 2^128, its module and its name.
#[derive(PartialEq, Eq, Hash, Drop)]
pub struct StructId {
    pub address: u128,
    pub module: Name,
    pub name: Name,
}

/// The width of an unsigned integer type.
#[derive(Clone, Copy, Debug, PartialEq, Eq)]
pub enum Width {
    U8,
    U16,
    U32,
    U64,
    U128,
}

/// A type of Move or of its specifications. `num` is the type of integers of any size; a type parameter is its number;
/// a list of types between parentheses is a tuple.
#[cycle(type_term)]
pub struct TypeTerm {
    pub node: TypeNode,
}

// A separate impl, so that each drop is a call and not the cases of all forms below it.
impl Drop for TypeTerm {
    #[cycle(drop_type)]
    fn drop(self) {
        let TypeTerm { node } = self;
        drop(node);
    }
}

/// The forms of a type.
#[cycle(type_term)]
#[derive(Drop)]
pub enum TypeNode {
    Bool,
    Int(Width),
    Num,
    Address,
    Signer,
    Vector(Box<TypeTerm>),
    Struct(StructId, TypeList),
    Param(u32),
    Shared(Box<TypeTerm>),
    Mutable(Box<TypeTerm>),
    Tuple(TypeList),
}

/// Types, in order.
#[cycle(type_term)]
#[derive(Drop)]
pub struct TypeList {
    pub items: Vec<TypeTerm>,
}

impl Model for TypeTerm {
    ghost use Rattle.base.specs.TypeData.{TypeData, coded_type, type_size};

    ghost Value = { TypeData };

    ghost coded = { coded_type };

    ghost use Rattle.base.specs.TypeView.{type_of_node};

    ghost view = { λ a. type_of_node a.node };

    ghost size = { type_size };

    ghost use Rattle.base.specs.TypeFalls.{node_falls};

    ghost size_decreases = { λ a h. node_falls a.node };
}

impl Model for TypeList {
    ghost use Rattle.base.specs.TypeData.{TypesData, coded_types, types_of, types_size};

    ghost Value = { TypesData };

    ghost coded = { coded_types };

    ghost view = { λ a. types_of a.items.items };

    ghost size = { types_size };

    ghost use Rattle.base.specs.TypeFalls.{list_falls};

    ghost size_decreases = { λ a h. list_falls a.items.items };
}

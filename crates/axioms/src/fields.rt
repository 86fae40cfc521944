//! The fields of struct types, by the shapes of structs.

ghost use Rattle.std.specs.Prelude.{◌≡◌, ◌↔◌, ◌<◌, ℕ, MatchOption, None, Some, slice_get, IsTrue};
ghost use Rattle.base.specs.TypeData.{TypeData, TypesData, list_of_types, types_of};
ghost use Rattle.fol.specs.declared.shapes.Shape.{Shape};
ghost use Rattle.axioms.specs.Fields.{shape_of, IsStruct, HasFields, HasField, HasFieldType, IsPut, ArePut};

use base::same::{same_struct, same_type};
use base::types::{StructId, TypeList, TypeNode, TypeTerm};
use fol::shapes::{Shape, Shapes};

/// The list of these types, as one value.
#[tactic(auto, using(crate::proofs::Shapes::listed))]
pub fn items(types: &TypeList) -> &[TypeTerm]
    ensures { result.now ≡ list_of_types types.now }
{
    types.items.as_slice()
}

// The first shape with the name.
#[tactic(auto, using(crate::proofs::Shapes::shape_found, crate::proofs::Shapes::shape_next))]
fn shape_named<'a>(shapes: &'a [Shape], name: &StructId) -> Option<&'a Shape>
    ensures { MatchOption result (shape_of shapes.now name.now ≡ None) (λ found. shape_of shapes.now name.now ≡ Some found.now) }
{
    for shape in shapes {
        if same_struct(&shape.name, name) {
            return Some(shape);
        }
    }
    None
}

/// The shape of the struct of the type. None if it has no shape, or if the type has not as many type arguments as the
/// shape has type parameters.
pub fn struct_shape<'a>(shapes: &'a Shapes, of: &TypeTerm) -> Option<&'a Shape>
    ensures { MatchOption result ((shape : Shape) (args : TypesData) → IsStruct shapes.now of.now shape args → ⊥) (λ found. (args : TypesData) × IsStruct shapes.now of.now found.now args) }
{
    match &of.node {
        TypeNode::Struct(name, args) => match shape_named(shapes.as_slice(), name) {
            Some(shape) => {
                if items(args).len() == shape.parameters as usize {
                    Some(shape)
                } else {
                    None
                }
            }
            None => None,
        },
        _ => None,
    }
}

/// Decides whether the type is that of a struct with this many fields.
#[tactic(auto, unfolding(crate::specs::Fields::HasFields))]
pub fn has_fields(shapes: &Shapes, of: &TypeTerm, count: usize) -> bool
    ensures { IsTrue result ↔ HasFields shapes.now of.now count }
{
    match struct_shape(shapes, of) {
        Some(shape) => items(&shape.fields).len() == count,
        None => false,
    }
}

/// Decides whether the type is that of a struct with a field of this number.
#[tactic(auto, unfolding(crate::specs::Fields::HasField))]
pub fn has_field(shapes: &Shapes, of: &TypeTerm, number: u32) -> bool
    ensures { IsTrue result ↔ HasField shapes.now of.now number }
{
    match struct_shape(shapes, of) {
        Some(shape) => (number as usize) < items(&shape.fields).len(),
        None => false,
    }
}

/// Decides whether the first type is that of a struct whose field with this number has the second type.
#[tactic(auto, unfolding(crate::specs::Fields::HasFieldType))]
pub fn has_field_type(shapes: &Shapes, of: &TypeTerm, number: u32, to: &TypeTerm) -> bool
    ensures { IsTrue result ↔ HasFieldType shapes.now of.now number to.now }
{
    match &of.node {
        TypeNode::Struct(_, args) => match struct_shape(shapes, of) {
            Some(shape) => is_field_put(items(args), items(&shape.fields), number, to),
            None => false,
        },
        _ => false,
    }
}

fn is_field_put(args: &[TypeTerm], fields: &[TypeTerm], number: u32, to: &TypeTerm) -> bool
    ensures { IsTrue result
        ↔ ((f : TypeData) × (slice_get fields.now number ≡ Some f) × IsPut args.now f to.now) }
{
    match fields.get(number as usize) {
        Some(field) => is_put(args, field, to),
        None => false,
    }
}

/// Decides whether the second type is the first with the type arguments substituted for its type parameters, each of
/// which has one.
#[cycle(put)]
pub fn is_put(args: &[TypeTerm], from: &TypeTerm, to: &TypeTerm) -> bool
    ensures { IsTrue result ↔ IsPut args.now from.now to.now }
{
    match (&from.node, &to.node) {
        (TypeNode::Param(number), _) => is_argument(args, *number, to),
        (TypeNode::Bool, TypeNode::Bool) => true,
        (TypeNode::Int(a), TypeNode::Int(b)) => *a == *b,
        (TypeNode::Num, TypeNode::Num) => true,
        (TypeNode::Address, TypeNode::Address) => true,
        (TypeNode::Signer, TypeNode::Signer) => true,
        (TypeNode::Vector(a), TypeNode::Vector(b)) => is_put(args, a, b),
        (TypeNode::Struct(s, a), TypeNode::Struct(t, b)) => {
            same_struct(s, t) && are_put(args, a, b)
        }
        (TypeNode::Shared(a), TypeNode::Shared(b)) => is_put(args, a, b),
        (TypeNode::Mutable(a), TypeNode::Mutable(b)) => is_put(args, a, b),
        (TypeNode::Tuple(a), TypeNode::Tuple(b)) => are_put(args, a, b),
        _ => false,
    }
}

fn is_argument(args: &[TypeTerm], number: u32, to: &TypeTerm) -> bool
    ensures { IsTrue result ↔ (slice_get args.now number ≡ Some to.now) }
{
    match args.get(number as usize) {
        Some(found) => same_type(found, to),
        None => false,
    }
}

#[cycle(put)]
fn are_put(args: &[TypeTerm], from: &TypeList, to: &TypeList) -> bool
    ensures { IsTrue result ↔ ArePut args.now from.now to.now }
{
    are_all_put(args, from.items.as_slice(), to.items.as_slice())
}

#[cycle(put)]
fn are_all_put(args: &[TypeTerm], from: &[TypeTerm], to: &[TypeTerm]) -> bool
    ensures { IsTrue result ↔ ArePut args.now (types_of from.now) (types_of to.now) }
{
    match (from.split_first(), to.split_first()) {
        (None, None) => true,
        (Some((a, rest_a)), Some((b, rest_b))) => {
            is_put(args, a, b) && are_all_put(args, rest_a, rest_b)
        }
        _ => false,
    }
}

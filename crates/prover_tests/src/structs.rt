//! Structs with fields of whole numbers.

ghost use Rattle.std.specs.Prelude.{◌≤◌, length, IfOk};
ghost use Rattle.base.specs.TypeData.{list_of_types};
ghost use Rattle.axiom_instances.specs.StructRows.{HasFewFields};

use base::memory::NoMemory;
use base::name::Name;
use base::types::{StructId, TypeList, TypeNode, TypeTerm};
use fol::shapes::{Shape, Shapes};
use std::alloc::Global;

pub(crate) fn whole() -> TypeTerm {
    TypeTerm {
        node: TypeNode::Num,
    }
}

/// The struct with so many fields: `s3` of the module `0x1::m` has three.
pub(crate) fn struct_name(alloc: Global, fields: u8) -> Result<StructId, NoMemory> {
    let module = Name::from_slice(alloc, b"m")?;
    let name = Name::from_slice(alloc, &[b's', b'0'.saturating_add(fields)])?;
    Ok(StructId {
        address: 1,
        module,
        name,
    })
}

fn fields(alloc: Global, count: u8) -> Result<TypeList, NoMemory>
    ensures { IfOk result (λ list. length (list_of_types list) ≤ 255) }
{
    let mut items = Vec::new(alloc);
    for position in 0..count {
        items.push(whole())?;
    }
    Ok(TypeList { items })
}

fn shape(alloc: Global, count: u8) -> Result<Shape, NoMemory>
    ensures { IfOk result (λ shape. length (list_of_types shape.fields) ≤ 255) }
{
    let name = struct_name(alloc, count)?;
    let fields = fields(alloc, count)?;
    Ok(Shape {
        name,
        parameters: 0,
        fields,
    })
}

/// The shapes of the structs with up to nine fields.
pub(crate) fn shapes(alloc: Global) -> Result<Shapes, NoMemory>
    ensures { IfOk result HasFewFields }
{
    let mut shapes = Shapes::new(alloc);
    for count in 0..10 {
        let one = shape(alloc, count)?;
        shapes.add(one)?;
    }
    Ok(shapes)
}

//! The shapes of structs.

ghost use Rattle.std.specs.Prelude.{◌≡◌, ◌∷◌, ◌++◌, [], OnOk, OnErr};

use base::memory::NoMemory;
use base::types::{StructId, TypeList};
use std::alloc::Global;
use std::marker::Model;

/// The shape of a struct: the number of its type parameters, and the types of its fields over them.
#[derive(Drop)]
pub struct Shape {
    pub name: StructId,
    pub parameters: u32,
    pub fields: TypeList,
}

/// The shapes of structs. Of several shapes with one name the first is used; a struct without a shape has no values.
#[derive(Drop)]
pub struct Shapes {
    items: Vec<Shape>,
}

impl Model for Shapes {
    ghost use Rattle.std.specs.Prelude.{List};
    ghost use Rattle.fol.specs.declared.shapes.Shape.{Shape};
    ghost use Rattle.fol.specs.ShapeCodes.{coded_shapes};

    ghost Value = { List Shape };

    ghost coded = { coded_shapes };

    ghost view = { λ s. s.items.items };
}

impl Shapes {
    /// Returns the empty list of shapes.
    pub fn new(alloc: Global) -> Shapes
        ensures { result ≡ [] }
    {
        Shapes {
            items: Vec::new(alloc),
        }
    }

    /// The shapes, in the order in which they were added.
    pub fn as_slice(&self) -> &[Shape]
        ensures { result.now ≡ self.now }
    {
        self.items.as_slice()
    }

    /// Adds a shape at the end. After `NoMemory` the shapes are unchanged.
    pub fn add(&mut self, shape: Shape) -> Result<(), NoMemory>
        ensures ok { OnOk result (self.new ≡ self.old ++ shape ∷ []) }
        ensures err { OnErr result (self.new ≡ self.old) }
    {
        self.items.push(shape)?;
        Ok(())
    }
}

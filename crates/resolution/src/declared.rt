//! Declarations with their names.

ghost use Rattle.std.specs.Prelude.{◌≡◌, [], ◌∷◌, OnOk};
ghost use Rattle.resolution.specs.Parts.{Entered, finished};

use crate::clauses::pragmas::{Settings, pragmas_of};
use crate::first::put_first;
use crate::tables::{Owned, function_with, struct_with};
use base::memory::NoMemory;
use base::types::{FunctionId, StructId};
use program::declaration::{Constant, Function, Module, Schema, SpecFunction, Struct};
use program::program::{ConstantId, ModuleId, Program, SchemaId};

/// The kinds of a declaration.
#[derive(Drop)]
pub enum DeclaredForm {
    Module(ModuleId, Module),
    Struct(StructId, Struct),
    Constant(ConstantId, Constant),
    Function(FunctionId, Function),
    SpecFunction(FunctionId, SpecFunction),
    Schema(SchemaId, Schema),
}

/// A declaration with its name.
pub struct Declared {
    pub form: DeclaredForm,
}

// A separate implementation, so that dropping a value is one call and does not inline the cases of nested forms.
impl Drop for Declared {
    fn drop(self) {
        let Declared { form } = self;
        drop(form);
    }
}

impl Declared {
    /// Completes a declaration with the clauses of its owner and with the pragmas of the owner and of its module.
    pub fn finished(self, owned: Owned, of_module: Settings) -> Declared
        ensures { result.form ≡ finished self.form owned.clauses owned.settings of_module }
    {
        let Declared { form } = self;
        let Owned { clauses, settings } = owned;
        let form = match form {
            DeclaredForm::Struct(id, resolved) => {
                DeclaredForm::Struct(id, struct_with(resolved, clauses))
            }
            DeclaredForm::Function(id, resolved) => {
                let pragmas = pragmas_of(settings, of_module);
                DeclaredForm::Function(id, function_with(resolved, pragmas, clauses))
            }
            DeclaredForm::Module(id, resolved) => {
                drop(clauses);
                DeclaredForm::Module(id, resolved)
            }
            DeclaredForm::Constant(id, resolved) => {
                drop(clauses);
                DeclaredForm::Constant(id, resolved)
            }
            DeclaredForm::SpecFunction(id, resolved) => {
                drop(clauses);
                DeclaredForm::SpecFunction(id, resolved)
            }
            DeclaredForm::Schema(id, resolved) => {
                drop(clauses);
                DeclaredForm::Schema(id, resolved)
            }
        };
        Declared { form }
    }

    /// Adds a declaration to its table, unless its name is taken.
    pub fn put_into(self, program: &mut Program) -> Result<(), NoMemory>
        ensures { OnOk result (Entered (self ∷ []) program.old program.new) }
    {
        let Declared { form } = self;
        match form {
            DeclaredForm::Module(id, resolved) => put_first(&mut program.modules, id, resolved),
            DeclaredForm::Struct(id, resolved) => put_first(&mut program.structs, id, resolved),
            DeclaredForm::Constant(id, resolved) => put_first(&mut program.constants, id, resolved),
            DeclaredForm::Function(id, resolved) => put_first(&mut program.functions, id, resolved),
            DeclaredForm::SpecFunction(id, resolved) => {
                put_first(&mut program.spec_functions, id, resolved)
            }
            DeclaredForm::Schema(id, resolved) => put_first(&mut program.schemas, id, resolved),
        }
    }
}

//! The type parameters of structs and callees.

ghost use Rattle.std.specs.Prelude.{◌≡◌};
ghost use Rattle.std.specs.Map.{lookup};
ghost use Rattle.std.specs.Option.{option_map};
ghost use Rattle.program.specs.Same.{same_function, same_struct};
ghost use Rattle.typing_rules.specs.Settings.{arity_of, callee_signature, function_signature, storage_signature, struct_arity, vector_signature};

use base::types::{FunctionId, StructId, Width};
use program::code::Callee;
use program::declaration::{Function, Struct};
use program::operator::{StorageOperation, VectorFunction};
use program::program::Program;
use program::table::Table;

/// The number of type parameters of a struct; 0 where it is not declared.
pub fn struct_arity(structs: &Table<StructId, Struct>, id: &StructId) -> usize
    ensures { result ≡ struct_arity (lookup (same_struct id.now) structs.now) }
{
    match structs.get(id) {
        Some(found) => found.type_parameters.as_slice().len(),
        None => 0,
    }
}

fn function_arity(functions: &Table<FunctionId, Function>, id: &FunctionId) -> usize
    ensures { result ≡ arity_of (option_map function_signature (lookup (same_function id.now) functions.now)) }
{
    match functions.get(id) {
        Some(found) => found.type_parameters.as_slice().len(),
        None => 0,
    }
}

/// The number of type parameters of a callee; 0 where it is not declared.
pub fn callee_arity(program: &Program, callee: &Callee) -> usize
    ensures { result ≡ arity_of (callee_signature program.now callee.now) }
{
    match callee {
        Callee::Function(id) => function_arity(&program.functions, id),
        Callee::Storage(_) | Callee::Vector(_) => 1,
        Callee::AddressOf => 0,
    }
}

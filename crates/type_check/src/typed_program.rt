//! Typed programs: programs with the types of their bodies, clauses and spec functions.

pub mod clauses;
pub mod instances;
mod locals;
mod tables;

ghost use Rattle.std.specs.Prelude.{IfOk, MatchResult};
ghost use Rattle.declaration_cycles.specs.Circular.{HasNoCycle, schema_kind};
ghost use Rattle.type_check.specs.Functions.{AreTypings};
ghost use Rattle.type_check.specs.Included.{AreIncluded};
ghost use Rattle.type_check.specs.Answers.{FaultSays, IsDetermined, IsWellFormed};
ghost use Rattle.type_check.specs.TypedPrograms.{IsTypedProgram};

use crate::typed_program::clauses::{ClauseTables, FunctionClauses, clause_tables};
use crate::typed_program::instances::{InstanceTables, instance_tables};
use crate::typed_program::tables::{DeclarationTables, declaration_tables};
use crate::typing::{ProgramTyping, TypeFault, program_typing};
use base::memory::NoMemory;
use body_types::code::plain::code_types;
use program::field_numbers::FieldNumbers;
use program::program::Program;
use program::sequence::Sequence;
use std::alloc::Global;
use typing_rules::type_pool::TypePool;

/// The types of a body, an initialiser, a clause or a spec function, by their numbers in a pool of its own: first those
/// of its nodes, patterns among them, then those of its locals or of the variables of its quantifiers, then those of
/// the type arguments of its nodes.
#[derive(Drop)]
pub struct TypeTable {
    pub pool: TypePool,
    pub types: Sequence<usize>,
}

/// A program that keeps the rules on types and locals, and the tables of its declarations, in their order.
#[derive(Drop)]
pub struct TypedProgram {
    pub program: Program,
    pub functions: Vec<TypeTable>,
    pub constants: Vec<TypeTable>,
    pub spec_functions: Vec<TypeTable>,
    /// For each function the tables of its clauses.
    pub function_clauses: Vec<FunctionClauses>,
    /// For each struct the tables of its clauses, in their order.
    pub struct_clauses: Vec<Sequence<TypeTable>>,
    /// For each module the tables of its clauses, in their order.
    pub module_clauses: Vec<Sequence<TypeTable>>,
    /// For each included schema the tables of its clauses there.
    pub instances: InstanceTables,
    /// The numbers of the fields of structs: with the type of the owner of a field, or of the packed struct, they
    /// determine which field a node names.
    pub fields: FieldNumbers,
}

/// A program all of whose types are determined, with its tables. Those of functions and of included schemas are made
/// from their typings.
fn with_tables(
    alloc: Global,
    program: Program,
    typing: ProgramTyping,
) -> Result<TypedProgram, NoMemory>
    requires typings { AreTypings program typing.functions.items }
    requires included { AreIncluded program typing.instances }
    requires determined { IsDetermined program }
    ensures { IfOk result (IsTypedProgram program) }
{
    let ProgramTyping {
        functions,
        instances,
    } = typing;
    let types = code_types(alloc);
    let instances = instance_tables(alloc, &program, instances)?;
    let declarations = declaration_tables(alloc, &types, &program, functions)?;
    let clauses = clause_tables(alloc, &types, &program, &declarations.functions)?;
    let fields = FieldNumbers::new(alloc, &program.structs)?;
    let DeclarationTables {
        functions,
        constants,
        spec_functions,
    } = declarations;
    let ClauseTables {
        functions: function_clauses,
        structs: struct_clauses,
        modules: module_clauses,
    } = clauses;
    Ok(TypedProgram {
        program,
        functions,
        constants,
        spec_functions,
        function_clauses,
        struct_clauses,
        module_clauses,
        instances,
        fields,
    })
}

/// Types a whole program. The time grows as that of `crate::typing::program_typing`; constants, spec functions and the
/// clauses of declarations are typed once more for their tables, since none of their typings are kept while the program
/// is checked.
///
/// # Errors
///
/// Each rule if and only if it is the first that is broken, with the span of the first declaration that breaks it; a
/// clause is identified by its spec block. Schemas must not include themselves.
pub fn type_program(alloc: Global, program: Program) -> Result<TypedProgram, TypeFault>
    requires { HasNoCycle (schema_kind program) }
    ensures well { MatchResult result (λ _. IsWellFormed program) (FaultSays program) }
    ensures typed { IfOk result (IsTypedProgram program) }
{
    let typing = program_typing(alloc, &program)?;
    let typed = with_tables(alloc, program, typing)?;
    Ok(typed)
}

//! The type tables of functions, constants and spec functions.

ghost use Rattle.std.specs.Prelude.{List, IfOk};
ghost use Rattle.base.specs.Pairs.{Paired};
ghost use Rattle.program.specs.CodeNodes.{CodeNode};
ghost use Rattle.typing_rules.specs.Answers.{System};
ghost use Rattle.typing_rules.specs.CodeSystems.{constant_system, function_system};
ghost use Rattle.typing_rules.specs.Clauses.{spec_function_system};
ghost use Rattle.body_types.specs.Plain.{AreCodeTypes};
ghost use Rattle.body_types.specs.CodeTyped.{TypingSays};
ghost use Rattle.body_types.specs.SpecTyped.{SpecTypingSays};
ghost use Rattle.type_check.specs.Functions.{AreTypings};
ghost use Rattle.type_check.specs.Answers.{IsDetermined};
ghost use Rattle.type_check.specs.Tables.{IsSettled, IsTable};

use crate::code::functions::FunctionTyping;
use crate::typed_program::TypeTable;
use base::memory::NoMemory;
use body_types::code::plain::CodeTypes;
use body_types::code::typing::{CodeTyping, constant_typing};
use body_types::spec::typing::{SpecTyping, function_typing};
use program::declaration::{Constant, SpecFunction};
use program::program::Program;
use std::alloc::Global;
use typing_rules::type_pool::TypePool;

/// The tables of functions, constants and spec functions, each in their order.
#[derive(Drop)]
pub(crate) struct DeclarationTables {
    pub functions: Vec<TypeTable>,
    pub constants: Vec<TypeTable>,
    pub spec_functions: Vec<TypeTable>,
}

/// The table of typed code.
fn code_table(pool: TypePool, typing: CodeTyping) -> TypeTable
    requires { (s : System) × (nodes : List CodeNode) × IsSettled s × TypingSays s nodes pool typing }
    ensures { (s : System) (nodes : List CodeNode) → TypingSays s nodes pool typing → IsTable s result }
{
    match typing {
        CodeTyping::Typed(types, _) => TypeTable { pool, types },
        CodeTyping::Untypable => unreachable!(),
        CodeTyping::Ambiguous(_, _) => unreachable!(),
    }
}

/// The table of a typed clause or spec function.
pub(crate) fn spec_table(pool: TypePool, typing: SpecTyping) -> TypeTable
    requires { (s : System) × IsSettled s × SpecTypingSays s pool typing }
    ensures { (s : System) → SpecTypingSays s pool typing → IsTable s result }
{
    match typing {
        SpecTyping::Typed(types) => TypeTable { pool, types },
        SpecTyping::Untypable => unreachable!(),
        SpecTyping::Ambiguous(_) => unreachable!(),
    }
}

/// The tables of functions, made from their typings.
fn function_tables(
    alloc: Global,
    program: &Program,
    typings: Vec<FunctionTyping>,
) -> Result<Vec<TypeTable>, NoMemory>
    requires typings { AreTypings program.now typings.items }
    requires determined { IsDetermined program.now }
    ensures { IfOk result (λ tables. Paired (λ f t. IsTable (function_system program.now f.1) t) program.now.functions tables.items) }
{
    let mut tables = Vec::new(alloc);
    for one in typings {
        let FunctionTyping { pool, typing, .. } = one;
        tables.push(code_table(pool, typing))?;
    }
    Ok(tables)
}

fn constant_table(
    alloc: Global,
    types: &CodeTypes,
    program: &Program,
    constant: &Constant,
) -> Result<TypeTable, NoMemory>
    requires types { AreCodeTypes types.now }
    requires settled { IsSettled (constant_system program.now constant.now) }
    ensures { IfOk result (IsTable (constant_system program.now constant.now)) }
{
    let mut pool = TypePool::new(alloc);
    let typing = constant_typing(alloc, types, program, constant, &mut pool)?;
    Ok(code_table(pool, typing))
}

fn constant_tables(
    alloc: Global,
    types: &CodeTypes,
    program: &Program,
) -> Result<Vec<TypeTable>, NoMemory>
    requires types { AreCodeTypes types.now }
    requires determined { IsDetermined program.now }
    ensures { IfOk result (λ tables. Paired (λ c t. IsTable (constant_system program.now c.1) t) program.now.constants tables.items) }
{
    let mut tables = Vec::new(alloc);
    for number in 0..program.constants.len() {
        if let Some((_, constant)) = program.constants.entry(number) {
            let table = constant_table(alloc, types, program, constant)?;
            tables.push(table)?;
        }
    }
    Ok(tables)
}

fn spec_function_table(
    alloc: Global,
    types: &CodeTypes,
    program: &Program,
    function: &SpecFunction,
) -> Result<TypeTable, NoMemory>
    requires types { AreCodeTypes types.now }
    requires settled { IsSettled (spec_function_system program.now function.now) }
    ensures { IfOk result (IsTable (spec_function_system program.now function.now)) }
{
    let mut pool = TypePool::new(alloc);
    let typing = function_typing(alloc, types, program, function, &mut pool)?;
    Ok(spec_table(pool, typing))
}

fn spec_function_tables(
    alloc: Global,
    types: &CodeTypes,
    program: &Program,
) -> Result<Vec<TypeTable>, NoMemory>
    requires types { AreCodeTypes types.now }
    requires determined { IsDetermined program.now }
    ensures { IfOk result (λ tables. Paired (λ f t. IsTable (spec_function_system program.now f.1) t) program.now.spec_functions tables.items) }
{
    let mut tables = Vec::new(alloc);
    for number in 0..program.spec_functions.len() {
        if let Some((_, function)) = program.spec_functions.entry(number) {
            let table = spec_function_table(alloc, types, program, function)?;
            tables.push(table)?;
        }
    }
    Ok(tables)
}

/// The tables of declarations; those of functions are made from their typings.
pub(crate) fn declaration_tables(
    alloc: Global,
    types: &CodeTypes,
    program: &Program,
    typings: Vec<FunctionTyping>,
) -> Result<DeclarationTables, NoMemory>
    requires types { AreCodeTypes types.now }
    requires typings { AreTypings program.now typings.items }
    requires determined { IsDetermined program.now }
    ensures functions { IfOk result (λ tables. Paired (λ f t. IsTable (function_system program.now f.1) t) program.now.functions tables.functions.items) }
    ensures constants { IfOk result (λ tables. Paired (λ c t. IsTable (constant_system program.now c.1) t) program.now.constants tables.constants.items) }
    ensures spec_functions { IfOk result (λ tables. Paired (λ f t. IsTable (spec_function_system program.now f.1) t) program.now.spec_functions tables.spec_functions.items) }
{
    let functions = function_tables(alloc, program, typings)?;
    let constants = constant_tables(alloc, types, program)?;
    let spec_functions = spec_function_tables(alloc, types, program)?;
    Ok(DeclarationTables {
        functions,
        constants,
        spec_functions,
    })
}

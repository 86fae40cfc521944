//! The type tables of the clauses of declarations.

ghost use Rattle.std.specs.Prelude.{Contains, IfOk};
ghost use Rattle.base.specs.Pairs.{Paired};
ghost use Rattle.base.specs.TypeData.{NoTypes};
ghost use Rattle.base.specs.declared.types.FunctionId.{FunctionId};
ghost use Rattle.typing_rules.specs.Answers.{System};
ghost use Rattle.typing_rules.specs.Clauses as C;
ghost use Rattle.typing_rules.specs.CodeSystems.{function_system};
ghost use Rattle.type_constraints.specs.SpecSettings.{owner_names, owner_types};
ghost use Rattle.type_constraints.specs.Blocks.{block_of};
ghost use Rattle.body_types.specs.Plain.{AreCodeTypes};
ghost use Rattle.body_types.specs.SpecTyped.{SpecTypingSays};
ghost use Rattle.type_check.specs.declared.clauses.judged.JudgedClause.{JudgedClause as JudgedData};
ghost use Rattle.type_check.specs.Answers.{IsDetermined};
ghost use Rattle.type_check.specs.Clauses.{AreClauseTables, AreFunctionClauses, AreLocals, AreLoopTables, AreLoopTablesWith, AreSettled, Tells};
ghost use Rattle.type_check.specs.Tables.{IsSettled, IsTable};

use crate::clauses::judged::{JudgedClause, judge_clause};
use crate::clauses::owner::judge_owner;
use crate::typed_program::TypeTable;
use crate::typed_program::locals::local_types;
use crate::typed_program::tables::spec_table;
use base::memory::NoMemory;
use base::types::TypeTerm;
use body_types::code::plain::CodeTypes;
use program::clause::Clause;
use program::declaration::Function;
use program::program::Program;
use program::sequence::Sequence;
use std::alloc::Global;
use type_constraints::clauses::block::Block;
use type_constraints::spec::setting::{Names, Owner};

/// The tables of the clauses of a function.
#[derive(Drop)]
pub struct FunctionClauses {
    /// The tables of its own clauses, in their order.
    pub own: Sequence<TypeTable>,
    /// The tables of the clauses of its loops, in their order.
    pub loops: Sequence<TypeTable>,
}

/// The tables of the clauses of declarations, in the order of these.
#[derive(Drop)]
pub(crate) struct ClauseTables {
    pub functions: Vec<FunctionClauses>,
    pub structs: Vec<Sequence<TypeTable>>,
    pub modules: Vec<Sequence<TypeTable>>,
}

/// The tables of typed clauses.
pub(crate) fn judged_tables(
    alloc: Global,
    judged: Vec<JudgedClause>,
) -> Result<Sequence<TypeTable>, NoMemory>
    requires { (one : JudgedData) → Contains judged.items one → (s : System) × IsSettled s × SpecTypingSays s one.pool one.typing }
    ensures { IfOk result (λ tables. Paired Tells judged.items tables) }
{
    let mut tables = Sequence::new(alloc);
    for one in judged {
        let JudgedClause { pool, typing, .. } = one;
        tables.push(spec_table(pool, typing))?;
    }
    Ok(tables)
}

/// The tables of the clauses of an owner, in blocks of this kind.
fn owner_tables<'a>(
    alloc: Global,
    types: &'a CodeTypes,
    program: &'a Program,
    owner: Owner<'a>,
    block: Block,
    clauses: &'a [Clause],
) -> Result<Sequence<TypeTable>, NoMemory>
    requires types { AreCodeTypes types.now }
    requires settled { AreSettled program.now (owner_names owner) (block_of block) (owner_types owner) clauses.now }
    ensures { IfOk result (AreClauseTables program.now (owner_names owner.entry) (block_of block) (owner_types owner.entry) clauses.now) }
{
    let judged = judge_owner(alloc, types, program, owner, block, clauses)?;
    judged_tables(alloc, judged)
}

/// The tables of the clauses of the loops of a function, whose locals have these types.
fn loop_tables_with<'a>(
    alloc: Global,
    types: &'a CodeTypes,
    program: &'a Program,
    function: &'a Function,
    locals: &'a [TypeTerm],
) -> Result<Sequence<TypeTable>, NoMemory>
    requires types { AreCodeTypes types.now }
    requires locals { AreLocals program.now function.now locals.now }
    requires declared { (id : FunctionId) × Contains program.now.functions (id, function.now) }
    requires determined { IsDetermined program.now }
    ensures { IfOk result (AreLoopTablesWith program.now function.now locals.now) }
{
    let names = Names {
        owner: Owner::Loop(&function.result, locals),
        lets: &[],
    };
    let mut tables = Sequence::new(alloc);
    for one in function.loop_clauses.as_slice() {
        let (judged, _) = judge_clause(alloc, types, program, names, Block::Loop, &one.clause)?;
        let JudgedClause { pool, typing, .. } = judged;
        tables.push(spec_table(pool, typing))?;
    }
    Ok(tables)
}

/// The tables of the clauses of the loops of a function, which has this table. Types of locals are converted to trees
/// only if there are such clauses, since a tree may be larger than the pool.
fn loop_tables<'a>(
    alloc: Global,
    types: &'a CodeTypes,
    program: &'a Program,
    function: &'a Function,
    table: &TypeTable,
) -> Result<Sequence<TypeTable>, NoMemory>
    requires types { AreCodeTypes types.now }
    requires table { IsTable (function_system program.now function.now) table.now }
    requires declared { (id : FunctionId) × Contains program.now.functions (id, function.now) }
    requires determined { IsDetermined program.now }
    ensures { IfOk result (AreLoopTables program.now function.now) }
{
    if function.loop_clauses.as_slice().is_empty() {
        return Ok(Sequence::new(alloc));
    }
    let locals = local_types(alloc, program, function, table)?;
    loop_tables_with(alloc, types, program, function, &locals)
}

/// The tables of the clauses of a function, which has this table, and of its loops.
fn clauses_of<'a>(
    alloc: Global,
    types: &'a CodeTypes,
    program: &'a Program,
    function: &'a Function,
    table: &TypeTable,
) -> Result<FunctionClauses, NoMemory>
    requires types { AreCodeTypes types.now }
    requires table { IsTable (function_system program.now function.now) table.now }
    requires declared { (id : FunctionId) × Contains program.now.functions (id, function.now) }
    requires determined { IsDetermined program.now }
    ensures { IfOk result (AreFunctionClauses program.now function.now) }
{
    let owner = Owner::Function(function);
    let clauses = function.clauses.as_slice();
    let own = owner_tables(alloc, types, program, owner, Block::Function, clauses)?;
    let loops = loop_tables(alloc, types, program, function, table)?;
    Ok(FunctionClauses { own, loops })
}

/// The tables of the clauses of all functions, which have these tables.
fn function_clauses<'a>(
    alloc: Global,
    types: &'a CodeTypes,
    program: &'a Program,
    tables: &[TypeTable],
) -> Result<Vec<FunctionClauses>, NoMemory>
    requires types { AreCodeTypes types.now }
    requires tables { Paired (λ f t. IsTable (function_system program.now f.1) t) program.now.functions tables.now }
    requires determined { IsDetermined program.now }
    ensures { IfOk result (λ clauses. Paired (λ f c. AreFunctionClauses program.now f.1 c) program.now.functions clauses.items) }
{
    let mut all = Vec::new(alloc);
    for number in 0..tables.len() {
        if let Some((_, function)) = program.functions.entry(number) {
            let one = clauses_of(alloc, types, program, function, &tables[number])?;
            all.push(one)?;
        }
    }
    Ok(all)
}

/// The tables of the clauses of all structs.
fn struct_clauses<'a>(
    alloc: Global,
    types: &'a CodeTypes,
    program: &'a Program,
) -> Result<Vec<Sequence<TypeTable>>, NoMemory>
    requires types { AreCodeTypes types.now }
    requires determined { IsDetermined program.now }
    ensures { IfOk result (λ tables. Paired (λ s t. AreClauseTables program.now (C.struct_names s.1) C.StructBlock NoTypes s.1.clauses t) program.now.structs tables.items) }
{
    let mut all = Vec::new(alloc);
    for number in 0..program.structs.len() {
        if let Some((_, declared)) = program.structs.entry(number) {
            let owner = Owner::Struct(declared);
            let clauses = declared.clauses.as_slice();
            let tables = owner_tables(alloc, types, program, owner, Block::Struct, clauses)?;
            all.push(tables)?;
        }
    }
    Ok(all)
}

/// The tables of the clauses of all modules.
fn module_clauses<'a>(
    alloc: Global,
    types: &'a CodeTypes,
    program: &'a Program,
) -> Result<Vec<Sequence<TypeTable>>, NoMemory>
    requires types { AreCodeTypes types.now }
    requires determined { IsDetermined program.now }
    ensures { IfOk result (λ tables. Paired (λ m t. AreClauseTables program.now C.module_names C.ModuleBlock NoTypes m.1.clauses t) program.now.modules tables.items) }
{
    let mut all = Vec::new(alloc);
    for number in 0..program.modules.len() {
        if let Some((_, declared)) = program.modules.entry(number) {
            let owner = Owner::Module;
            let clauses = declared.clauses.as_slice();
            let tables = owner_tables(alloc, types, program, owner, Block::Module, clauses)?;
            all.push(tables)?;
        }
    }
    Ok(all)
}

/// The tables of the clauses of all declarations; functions have these tables.
pub(crate) fn clause_tables<'a>(
    alloc: Global,
    types: &'a CodeTypes,
    program: &'a Program,
    tables: &[TypeTable],
) -> Result<ClauseTables, NoMemory>
    requires types { AreCodeTypes types.now }
    requires tables { Paired (λ f t. IsTable (function_system program.now f.1) t) program.now.functions tables.now }
    requires determined { IsDetermined program.now }
    ensures functions { IfOk result (λ clauses. Paired (λ f c. AreFunctionClauses program.now f.1 c) program.now.functions clauses.functions.items) }
    ensures structs { IfOk result (λ clauses. Paired (λ s t. AreClauseTables program.now (C.struct_names s.1) C.StructBlock NoTypes s.1.clauses t) program.now.structs clauses.structs.items) }
    ensures modules { IfOk result (λ clauses. Paired (λ m t. AreClauseTables program.now C.module_names C.ModuleBlock NoTypes m.1.clauses t) program.now.modules clauses.modules.items) }
{
    let functions = function_clauses(alloc, types, program, tables)?;
    let structs = struct_clauses(alloc, types, program)?;
    let modules = module_clauses(alloc, types, program)?;
    Ok(ClauseTables {
        functions,
        structs,
        modules,
    })
}

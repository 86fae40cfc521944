//! The judgment of a clause in its block.

ghost use Rattle.std.specs.Prelude.{◌≡◌, ◌↔◌, List, IsTrue, IfOk};
ghost use Rattle.base.specs.TypeData.{TypesData};
ghost use Rattle.base.specs.declared.span.Span.{Span as SpanData};
ghost use Rattle.typing_rules.specs.Answers.{System, IsUntypable, IsAmbiguous};
ghost use Rattle.typing_rules.specs.Clauses as C;
ghost use Rattle.program.specs.declared.program.Program.{Program as ProgramData};
ghost use Rattle.std.specs.List.{list_all};
ghost use Rattle.typing_rules.specs.ProperTypes.{is_proper_single};
ghost use Rattle.typing_rules.specs.Faults.{Stated};
ghost use Rattle.typing_rules.specs.declared.type_pool.PoolType.{PoolType};
ghost use Rattle.body_types.specs.Plain.{AreCodeTypes};
ghost use Rattle.type_constraints.specs.SpecSettings.{names_of, owner_types};
ghost use Rattle.type_constraints.specs.Blocks.{block_of};
ghost use Rattle.body_types.specs.SpecTyped.{SpecTypingSays};
ghost use Rattle.type_check.specs.Judged.{ClauseBreaks, ClauseSays, ClauseKnown, IncludedSays, IncludesImproper, stated};

use crate::clauses::arguments::{last_types, let_of};
use crate::clauses::instance::Instance;
use base::memory::NoMemory;
use base::span::Span;
use body_types::code::plain::CodeTypes;
use body_types::spec::typing::{SpecTyping, clause_typing};
use program::clause::{Clause, ClauseForm};
use program::declaration::TypedName;
use program::program::Program;
use std::alloc::Global;
use type_constraints::clauses::block::Block;
use type_constraints::code::written::is_proper_single;
use type_constraints::spec::setting::{LetType, Names};
use typing_rules::type_pool::TypePool;

/// The typing rules that a clause may break.
#[derive(Clone, Copy, Debug, PartialEq, Eq)]
pub enum ClauseRule {
    /// There is a typing, and the variables of an included schema have types that they may have.
    Typing,
    /// No head is open, and the type of each type variable is determined, if there are typings.
    Settling,
}

/// The judgment of a clause in its block.
#[derive(Drop)]
pub struct JudgedClause {
    /// The span of its block.
    pub span: Span,
    /// It has no typing, or it includes a schema of which a variable has a type that it may not have.
    pub is_untyped: bool,
    /// It has typings, and a head is open, or the type of a type variable is not determined.
    pub is_unsettled: bool,
    /// The instance that it includes, if all type arguments have types.
    pub included: Option<Instance>,
    /// Its typing, with its types in a pool of its own.
    pub typing: SpecTyping,
    pub pool: TypePool,
}

impl JudgedClause {
    /// Decides whether the clause breaks the rule.
    pub fn breaks(&self, rule: ClauseRule) -> bool
        ensures { (program : ProgramData) (c : Stated) → ClauseSays program c self.now → IsTrue result ↔ ClauseBreaks program rule c }
    {
        match rule {
            ClauseRule::Typing => self.is_untyped,
            ClauseRule::Settling => self.is_unsettled,
        }
    }
}

/// Decides whether each of these variables of a schema has a type that it may have.
fn are_proper(program: &Program, variables: &[TypedName]) -> bool
    ensures { result ≡ list_all (λ v. is_proper_single program.now.structs v.annotation) variables.now }
{
    for variable in variables {
        if !is_proper_single(&program.structs, &variable.annotation) {
            return false;
        }
    }
    true
}

/// Decides whether a schema is included of which a variable has a type that it may not have.
fn includes_improper(program: &Program, form: &ClauseForm) -> bool
    ensures { IsTrue result ↔ IncludesImproper program.now form.now }
{
    match form {
        ClauseForm::Include { schema, .. } => match program.schemas.get(schema) {
            Some(declared) => !are_proper(program, declared.variables.as_slice()),
            None => false,
        },
        _ => false,
    }
}

fn is_untypable(typing: &SpecTyping) -> bool
    ensures { (s : System) (pool : List PoolType) → SpecTypingSays s pool typing.now → IsTrue result ↔ IsUntypable s }
{
    matches!(typing, SpecTyping::Untypable)
}

fn is_ambiguous(typing: &SpecTyping) -> bool
    ensures { (s : System) (pool : List PoolType) → SpecTypingSays s pool typing.now → IsTrue result ↔ IsAmbiguous s }
{
    matches!(typing, SpecTyping::Ambiguous(_))
}

/// The instance that a clause includes, if all type arguments have types.
fn included(
    alloc: Global,
    program: &Program,
    block: Block,
    clause: &Clause,
    typing: &SpecTyping,
    pool: &TypePool,
) -> Result<Option<Instance>, NoMemory>
    requires { (s : System) × SpecTypingSays s pool.now typing.now }
    ensures { IfOk result (λ found. (names : C.Names) (types : TypesData) (span : SpanData) → SpecTypingSays (C.clause_system program.now names (block_of block) types clause.now) pool.now typing.now → IncludedSays program.now (stated names (block_of block) types clause.now span) found) }
{
    match &clause.form {
        ClauseForm::Include { schema, .. } => match program.schemas.get(schema) {
            None => Ok(None),
            Some(declared) => {
                let count = declared.type_parameters.as_slice().len();
                match last_types(alloc, typing, pool, count)? {
                    None => Ok(None),
                    Some(types) => Ok(Some(Instance {
                        schema: schema.try_clone(alloc)?,
                        types,
                        block,
                    })),
                }
            }
        },
        _ => Ok(None),
    }
}

/// Judges a clause in a block with these names, and returns the type of its `let`, if it is one and has a type.
/// `NoMemory` also where the value of a `let` is no node of the clause.
pub fn judge_clause<'a>(
    alloc: Global,
    types: &'a CodeTypes,
    program: &'a Program,
    names: Names<'a>,
    block: Block,
    clause: &'a Clause,
) -> Result<(JudgedClause, Option<LetType>), NoMemory>
    requires { AreCodeTypes types.now }
    ensures { IfOk result (λ known. ClauseKnown program.now (names_of names.entry) (block_of block) (owner_types names.entry.owner) clause.now known.0 known.1) }
{
    let mut pool = TypePool::new(alloc);
    let typing = clause_typing(alloc, types, program, names, block, clause, &mut pool)?;
    let is_improper = includes_improper(program, &clause.form);
    let included = included(alloc, program, block, clause, &typing, &pool)?;
    let of = let_of(alloc, &clause.form, &typing, &pool)?;
    let judged = JudgedClause {
        span: clause.block,
        is_untyped: is_untypable(&typing) | is_improper,
        is_unsettled: is_ambiguous(&typing),
        included,
        typing,
        pool,
    };
    Ok((judged, of))
}

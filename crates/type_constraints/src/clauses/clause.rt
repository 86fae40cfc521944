//! Clauses in their blocks.

ghost use Rattle.std.specs.Prelude.{◌≡◌, ◌++◌, ◌∷◌, [], IfOk, OnOk, Some};
ghost use Rattle.std.specs.List.{flat_map};
ghost use Rattle.std.specs.Map.{lookup};
ghost use Rattle.std.specs.Option.{option_copied};
ghost use Rattle.program.specs.Same.{same_schema};
ghost use Rattle.base.specs.TypeData.{BoolType};
ghost use Rattle.typing_rules.specs.Clauses as C;
ghost use Rattle.typing_rules.specs.CodeConstraints.{barred_unless, has};
ghost use Rattle.type_constraints.specs.Seen.{seen_all};
ghost use Rattle.type_constraints.specs.SpecSettings.{names_of, owner_types, setting_of};
ghost use Rattle.type_constraints.specs.Blocks.{block_of};
ghost use Rattle.type_constraints.specs.Includes.{include_constraints};

use crate::clauses::block::{Block, allowed_by, is_function_block, may_hold};
use crate::constraint::{Constraint, PlainType, add, add_unless, has};
use crate::spec::arguments::add_arguments;
use crate::spec::call::add_given;
use crate::spec::setting::{Names, SpecNode, SpecSetting};
use crate::spec::variables::variable_count;
use base::memory::NoMemory;
use base::types::TypeTerm;
use program::arena::Node;
use program::clause::{Clause, ClauseForm, ConditionKind};
use program::declaration::Schema;
use program::operator::SpecBuiltin;
use program::program::{Program, SchemaId};
use program::spec::{SpecBody, SpecCallee, SpecMany};
use program::table::Table;
use std::alloc::Global;
use typing_rules::sort::Sort;

/// The number of type parameters of a schema; 0 where it is not declared.
fn schema_arity(schemas: &Table<SchemaId, Schema>, id: &SchemaId) -> usize
    ensures { result ≡ C.schema_arity (lookup (same_schema id.now) schemas.now) }
{
    match schemas.get(id) {
        Some(found) => found.type_parameters.as_slice().len(),
        None => 0,
    }
}

/// The number of type variables after those of the nodes of a clause: those of the type arguments of an `include`.
pub fn form_arguments(program: &Program, form: &ClauseForm) -> usize
    ensures { result ≡ C.form_arguments program.now form.now }
{
    match form {
        ClauseForm::Include { schema, .. } => schema_arity(&program.schemas, schema),
        _ => 0,
    }
}

/// The setting of the expressions of a clause in a block with these names.
#[tactic(auto, using(crate::proofs::Stood::same_setting))]
pub fn clause_setting<'a>(
    program: &'a Program,
    names: Names<'a>,
    block: Block,
    clause: &'a Clause,
) -> Result<SpecSetting<'a>, NoMemory>
    ensures { IfOk result (λ setting. setting_of setting ≡ C.clause_setting program.now (names_of names.entry) (block_of block) (owner_types names.entry.owner) clause.now) }
{
    let variables = variable_count(&clause.body)?;
    Ok(SpecSetting {
        program,
        body: &clause.body,
        names,
        allowed: allowed_by(block, &clause.form),
        variables,
    })
}

fn is_global_callee(callee: &SpecCallee) -> bool
    ensures { result ≡ C.is_global_callee callee.now }
{
    match callee {
        SpecCallee::Builtin(SpecBuiltin::Global) => true,
        _ => false,
    }
}

/// Decides whether a node names a global resource.
fn is_global(node: &SpecNode) -> bool
    ensures { result ≡ C.is_global (Some node.now) }
{
    match node {
        Node::Many(SpecMany::Call(call), _) => is_global_callee(&call.get().callee),
        _ => false,
    }
}

/// Adds the constraints of `modifies`, which names global resources.
fn add_modified<'a>(
    constraints: &mut Vec<Constraint<'a>>,
    body: &SpecBody,
    root: usize,
) -> Result<(), NoMemory>
    ensures { OnOk result (seen_all constraints.new.items ≡ seen_all constraints.old.items ++ C.modified body.now.nodes root) }
{
    if root < body.len() {
        add_unless(constraints, is_global(body.node(root)))
    } else {
        add(constraints, &[Constraint::Barred])
    }
}

fn add_all_modified<'a>(
    constraints: &mut Vec<Constraint<'a>>,
    body: &SpecBody,
    roots: &[usize],
) -> Result<(), NoMemory>
    ensures { OnOk result (seen_all constraints.new.items ≡ seen_all constraints.old.items ++ flat_map (C.modified body.now.nodes) roots.now) }
{
    for root in roots {
        add_modified(constraints, body, *root)?;
    }
    Ok(())
}

/// Adds the constraints of a condition, which has type `bool`, in a block that may hold it.
fn add_condition<'a>(
    constraints: &mut Vec<Constraint<'a>>,
    block: Block,
    kind: ConditionKind,
    root: usize,
) -> Result<(), NoMemory>
    ensures { OnOk result (seen_all constraints.new.items ≡ seen_all constraints.old.items ++ (barred_unless (C.may_hold (block_of block) kind) ++ has root BoolType ∷ [])) }
{
    add_unless(constraints, may_hold(block, kind))?;
    add(constraints, &[has(root, PlainType::Bool)])
}

/// Adds the constraints of what is given for the variables of a schema, whose type arguments are the type variables
/// from `first` on.
fn add_given_to<'a>(
    constraints: &mut Vec<Constraint<'a>>,
    first: usize,
    schema: Option<&'a Schema>,
    given: &[usize],
) -> Result<(), NoMemory>
    ensures { OnOk result (seen_all constraints.new.items ≡ seen_all constraints.old.items ++ C.given_to first (option_copied schema.entry) given.now) }
{
    match schema {
        Some(found) => {
            let count = found.type_parameters.as_slice().len();
            add_given(constraints, first, count, given, found.variables.as_slice())
        }
        None => add(constraints, &[Constraint::Barred]),
    }
}

/// Adds the constraints of an `include`, which is like a call of its schema.
fn add_include<'a>(
    constraints: &mut Vec<Constraint<'a>>,
    setting: SpecSetting<'a>,
    first: usize,
    schema: &SchemaId,
    types: &'a [TypeTerm],
    given: &[usize],
) -> Result<(), NoMemory>
    ensures { OnOk result (seen_all constraints.new.items ≡ seen_all constraints.old.items ++ include_constraints (setting_of setting.entry) first schema.now types.now given.now) }
{
    let schemas = &setting.program.schemas;
    add_arguments(
        constraints,
        setting,
        first,
        schema_arity(schemas, schema),
        types,
    )?;
    add_given_to(constraints, first, schemas.get(schema), given)
}

#[tactic(auto, using(crate::proofs::Arguments::listed_types))]
fn add_whole<'a>(
    constraints: &mut Vec<Constraint<'a>>,
    setting: SpecSetting<'a>,
    block: Block,
    first: usize,
    form: &'a ClauseForm,
) -> Result<(), NoMemory>
    ensures { OnOk result (seen_all constraints.new.items ≡ seen_all constraints.old.items ++ C.whole_constraints (setting_of setting.entry) (block_of block) first form.now) }
{
    match form {
        ClauseForm::Condition(kind, root) => add_condition(constraints, block, *kind, *root),
        ClauseForm::Modifies(roots) => {
            add_unless(constraints, is_function_block(block))?;
            add_all_modified(constraints, setting.body, roots.as_slice())
        }
        ClauseForm::Let { value, .. } => {
            add(constraints, &[Constraint::IsOf(Sort::Value, *value)])
        }
        ClauseForm::Include {
            schema,
            types,
            given,
        } => {
            add_include(
                constraints,
                setting,
                first,
                schema,
                &types.items,
                given.as_slice(),
            )
        }
    }
}

/// Returns the constraints on a clause as a whole, in a block that may hold it. The type arguments of an `include` are
/// the type variables from `first` on.
pub fn whole_constraints<'a>(
    alloc: Global,
    setting: SpecSetting<'a>,
    block: Block,
    first: usize,
    form: &'a ClauseForm,
) -> Result<Vec<Constraint<'a>>, NoMemory>
    ensures { IfOk result (λ constraints. seen_all constraints.items ≡ C.whole_constraints (setting_of setting.entry) (block_of block) first form.now) }
{
    let mut constraints = Vec::new(alloc);
    add_whole(&mut constraints, setting, block, first, form)?;
    Ok(constraints)
}

//! The declarations of all modules that the meaning of names depends on.

ghost use Rattle.std.specs.Prelude.{◌≡◌, IfOk, OnOk};
ghost use Rattle.std.specs.List.{flat_map};
ghost use Rattle.indexmap.specs.IndexSet.{insert_all};
ghost use Rattle.scopes.specs.MemberNames.{first_stays, same_module};
ghost use Rattle.scopes.specs.Meanings.{schema_of};
ghost use Rattle.scopes.specs.Brings.{firsts};
ghost use Rattle.scopes.specs.Program.{builtin_modules, module_of, modules_of};
ghost use Rattle.resolution.specs.Setting.{same_schema};
ghost use Rattle.resolution.specs.SpecDeclarations.{schema_variables};
ghost use Rattle.resolution.specs.Known.{all_modules, all_schemas, schema_of_form, schema_of_member, schema_of_spec, schemas_of, schemas_of_module};

use crate::clauses::schemas::schema_variables;
use crate::first::put_first;
use base::memory::NoMemory;
use base::name::Name;
use body_names::spec::name_list::NameList;
use indexmap::IndexSet;
use program::program::{ModuleId, SchemaId};
use program::table::Table;
use scopes::environment::Environment;
use scopes::fault::NameFault;
use scopes::member::MemberId;
use std::alloc::Global;
use syntax_tree::clause::{Schema, Spec};
use syntax_tree::source::{Source, SourceForm, SourceMember, SourceModule};

/// All modules of a program, and the variables of all schemas.
#[derive(Drop)]
pub struct Known {
    pub modules: IndexSet<ModuleId>,
    pub schemas: Table<SchemaId, NameList>,
}

// ---- modules

/// Returns the builtin modules.
fn builtin_modules(alloc: Global) -> Result<IndexSet<ModuleId>, NoMemory>
    ensures { IfOk result (λ modules. modules.keys ≡ builtin_modules) }
{
    let mut modules = IndexSet::new(alloc);
    modules.insert(ModuleId {
        address: 1,
        name: Name::from_slice(alloc, b"vector")?,
    })?;
    modules.insert(ModuleId {
        address: 1,
        name: Name::from_slice(alloc, b"signer")?,
    })?;
    Ok(modules)
}

/// Adds a module, if its address is known.
fn note_module(
    alloc: Global,
    environment: &Environment,
    tree: &SourceModule,
    modules: &mut IndexSet<ModuleId>,
) -> Result<(), NoMemory>
    ensures { OnOk result (modules.new.keys ≡ insert_all same_module modules.old.keys (module_of environment.now tree.now)) }
{
    match environment.module_named(alloc, &tree.name) {
        Ok(id) => {
            modules.insert(id)?;
            Ok(())
        }
        Err(NameFault::Unknown) => Ok(()),
        Err(NameFault::NoMemory) => Err(NoMemory),
    }
}

fn note_modules(
    alloc: Global,
    environment: &Environment,
    trees: &[SourceModule],
    modules: &mut IndexSet<ModuleId>,
) -> Result<(), NoMemory>
    ensures { OnOk result (modules.new.keys ≡ insert_all same_module modules.old.keys (modules_of environment.now trees.now)) }
{
    for tree in trees {
        note_module(alloc, environment, tree, modules)?;
    }
    Ok(())
}

fn all_modules(
    alloc: Global,
    environment: &Environment,
    sources: &[Source],
) -> Result<IndexSet<ModuleId>, NoMemory>
    ensures { IfOk result (λ modules. modules.keys ≡ all_modules environment.now sources.now) }
{
    let mut modules = builtin_modules(alloc)?;
    for source in sources {
        note_modules(alloc, environment, source.modules.as_slice(), &mut modules)?;
    }
    Ok(modules)
}

// ---- schemas

/// Adds the variables of a schema, unless its name is taken.
fn note_schema(
    alloc: Global,
    own: &ModuleId,
    schema: &Schema,
    schemas: &mut Table<SchemaId, NameList>,
) -> Result<(), NoMemory>
    ensures { OnOk result (schemas.new ≡ first_stays same_schema schemas.old (schema_of (record { owner = own.now; name = schema.now.name.text })) (schema_variables schema.now.clauses)) }
{
    let member = MemberId {
        owner: own.try_clone(alloc)?,
        name: schema.name.text.try_clone(alloc)?,
    };
    let variables = schema_variables(alloc, &schema.clauses.items)?;
    put_first(schemas, member.into_schema(), variables)
}

/// Adds the variables of a spec block, if it is a schema.
fn note_spec(
    alloc: Global,
    own: &ModuleId,
    spec: &Spec,
    schemas: &mut Table<SchemaId, NameList>,
) -> Result<(), NoMemory>
    ensures { OnOk result (schemas.new ≡ firsts same_schema schemas.old (schema_of_spec own.now spec.now)) }
{
    match spec {
        Spec::Schema(schema) => note_schema(alloc, own, schema, schemas),
        _ => Ok(()),
    }
}

/// Adds the variables of a member, if it is a schema.
fn note_form(
    alloc: Global,
    own: &ModuleId,
    form: &SourceForm,
    schemas: &mut Table<SchemaId, NameList>,
) -> Result<(), NoMemory>
    ensures { OnOk result (schemas.new ≡ firsts same_schema schemas.old (schema_of_form own.now form.now)) }
{
    match form {
        SourceForm::Spec(spec) => note_spec(alloc, own, spec, schemas),
        _ => Ok(()),
    }
}

fn note_members(
    alloc: Global,
    own: &ModuleId,
    members: &[SourceMember],
    schemas: &mut Table<SchemaId, NameList>,
) -> Result<(), NoMemory>
    ensures { OnOk result (schemas.new ≡ firsts same_schema schemas.old (flat_map (schema_of_member own.now) members.now)) }
{
    for member in members {
        note_form(alloc, own, &member.form, schemas)?;
    }
    Ok(())
}

fn note_module_schemas(
    alloc: Global,
    environment: &Environment,
    tree: &SourceModule,
    schemas: &mut Table<SchemaId, NameList>,
) -> Result<(), NoMemory>
    ensures { OnOk result (schemas.new ≡ firsts same_schema schemas.old (schemas_of_module environment.now tree.now)) }
{
    match environment.module_named(alloc, &tree.name) {
        Ok(own) => note_members(alloc, &own, &tree.members, schemas),
        Err(NameFault::Unknown) => Ok(()),
        Err(NameFault::NoMemory) => Err(NoMemory),
    }
}

fn note_source_schemas(
    alloc: Global,
    environment: &Environment,
    trees: &[SourceModule],
    schemas: &mut Table<SchemaId, NameList>,
) -> Result<(), NoMemory>
    ensures { OnOk result (schemas.new ≡ firsts same_schema schemas.old (schemas_of environment.now trees.now)) }
{
    for tree in trees {
        note_module_schemas(alloc, environment, tree, schemas)?;
    }
    Ok(())
}

fn all_schemas(
    alloc: Global,
    environment: &Environment,
    sources: &[Source],
) -> Result<Table<SchemaId, NameList>, NoMemory>
    ensures { IfOk result (λ schemas. schemas ≡ all_schemas environment.now sources.now) }
{
    let mut schemas = Table::new(alloc);
    for source in sources {
        note_source_schemas(alloc, environment, source.modules.as_slice(), &mut schemas)?;
    }
    Ok(schemas)
}

/// Returns all modules of sources, and the variables of all their schemas, given the declarations of all modules.
pub fn known_in(
    alloc: Global,
    environment: &Environment,
    sources: &[Source],
) -> Result<Known, NoMemory>
    ensures modules { IfOk result (λ known. known.modules.keys ≡ all_modules environment.now sources.now) }
    ensures schemas { IfOk result (λ known. known.schemas ≡ all_schemas environment.now sources.now) }
{
    Ok(Known {
        modules: all_modules(alloc, environment, sources)?,
        schemas: all_schemas(alloc, environment, sources)?,
    })
}

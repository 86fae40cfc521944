//! Joins spec blocks to their functions.

ghost use Rattle.std.specs.Prelude.{◌≡◌, ◌++◌, ℕ, List, [], None, true, map, if◌then◌else◌, IfOk, OnOk};
ghost use Rattle.std.specs.List.{flat_map};
ghost use Rattle.base.specs.Names.{same_name};
ghost use Rattle.sum_module.specs.Scope.{all_differ};
ghost use Rattle.sum_module.specs.ClauseTable.{clauses_at, entry_at, names_among, with_clauses};
ghost use Rattle.sum_module.specs.Joined.{clauses_among, clauses_of_spec, functions_in, module_of, specs_in};

use crate::member::{SumMember, SumSpec};
use crate::module::BuiltModule;
use base::memory::NoMemory;
use base::name::Name;
use std::alloc::Global;
use std::collections::BTreeMap;
use std::marker::Model;
use sum_tree::clause::SumClause;
use sum_tree::function::{SpecifiedFunction, SumFunction, SumModule};

/// Clauses, in order.
#[derive(Drop)]
struct Clauses {
    items: Vec<SumClause>,
}

impl Model for Clauses {
    ghost use Rattle.std.specs.Coded.{codes};
    ghost use Rattle.std.specs.Prelude.{List};
    ghost use Rattle.sum_tree.specs.SumData.{coded_sum};
    ghost use Rattle.sum_tree.specs.declared.clause.SumClause.{SumClause};

    ghost Value = { List SumClause };

    ghost coded = { Prim.hlevel (codes, coded_sum) };

    ghost view = { λ c. c.items.items };
}

impl Clauses {
    /// Returns no clauses.
    fn new(alloc: Global) -> Clauses
        ensures { result ≡ [] }
    {
        Clauses {
            items: Vec::new(alloc),
        }
    }

    /// Appends these clauses.
    fn add(&mut self, more: Vec<SumClause>) -> Result<(), NoMemory>
        ensures { OnOk result (self.new ≡ self.old ++ more.items) }
    {
        let mut more = more;
        self.items.append(&mut more)?;
        Ok(())
    }

    /// The clauses, in order.
    fn into_vec(self) -> Vec<SumClause>
        ensures { result.items ≡ self }
    {
        self.items
    }
}

/// Splits members into the functions and the spec blocks, each in their order.
fn take_apart(
    alloc: Global,
    members: Vec<SumMember>,
) -> Result<(Vec<SumFunction>, Vec<SumSpec>), NoMemory>
    ensures functions { IfOk result (λ parts. parts.0.items ≡ functions_in members.items) }
    ensures specs { IfOk result (λ parts. parts.1.items ≡ specs_in members.items) }
{
    let mut functions = Vec::new(alloc);
    let mut specs = Vec::new(alloc);
    for member in members {
        match member {
            SumMember::Function(function) => functions.push(function)?,
            SumMember::Spec(spec) => specs.push(spec)?,
        }
    }
    Ok((functions, specs))
}

/// Removes the clauses of a name from the table, and returns them.
fn take_clauses(alloc: Global, name: &Name, table: &mut BTreeMap<Name, Clauses>) -> Clauses
    ensures taken { result ≡ clauses_at table.old name.now }
    ensures left { (other : List ℕ) → entry_at table.new other ≡ (if same_name name.now other then None else entry_at table.old other) }
{
    match table.remove(name) {
        Some(clauses) => clauses,
        None => Clauses::new(alloc),
    }
}

/// Appends the clauses of a spec block to those that the table has for its name.
fn add_spec(
    alloc: Global,
    spec: SumSpec,
    table: &mut BTreeMap<Name, Clauses>,
) -> Result<(), NoMemory>
    ensures { OnOk result ((name : List ℕ) → clauses_at table.new name ≡ clauses_at table.old name ++ clauses_of_spec name «spec») }
{
    let mut clauses = take_clauses(alloc, &spec.target, table);
    clauses.add(spec.clauses)?;
    table.insert(spec.target, clauses)?;
    Ok(())
}

/// Returns the clauses of spec blocks by the names of their functions.
fn table_of(alloc: Global, specs: Vec<SumSpec>) -> Result<BTreeMap<Name, Clauses>, NoMemory>
    ensures { IfOk result (λ table. (name : List ℕ) → clauses_at table name ≡ clauses_among name specs.items) }
{
    let mut table = BTreeMap::new(alloc);
    for spec in specs {
        add_spec(alloc, spec, &mut table)?;
    }
    Ok(table)
}

/// Returns each function with the clauses that the table has for its name.
fn specify_each(
    alloc: Global,
    functions: Vec<SumFunction>,
    table: BTreeMap<Name, Clauses>,
) -> Result<Vec<SpecifiedFunction>, NoMemory>
    requires { all_differ (names_among functions.items) ≡ true }
    ensures { IfOk result (λ made. made.items ≡ map (with_clauses table) functions.items) }
{
    let mut left = table;
    let mut made = Vec::new(alloc);
    for function in functions {
        let clauses = take_clauses(alloc, &function.name, &mut left).into_vec();
        made.push(SpecifiedFunction { function, clauses })?;
    }
    Ok(made)
}

/// Returns the functions of a module, each with the clauses of its spec blocks. The number is that of the module's
/// file.
pub fn join(alloc: Global, file: u32, module: BuiltModule) -> Result<SumModule, NoMemory>
    requires { all_differ (names_among (functions_in «module».members)) ≡ true }
    ensures { IfOk result (λ joined. joined ≡ module_of file «module») }
{
    let (functions, specs) = take_apart(alloc, module.members)?;
    let table = table_of(alloc, specs)?;
    let functions = specify_each(alloc, functions, table)?;
    Ok(SumModule {
        file,
        address: module.address,
        name: module.name,
        functions,
    })
}

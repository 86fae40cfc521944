//! The parameters of a module's functions, by the names of the functions.

ghost use Rattle.std.specs.Prelude.{◌≡◌, IfOk, OnOk};
ghost use Rattle.std.specs.Option.{option_map};
ghost use Rattle.sum_module.specs.Parameters.{IsAdded, IsTableOf, names_of, parameters_at};

use base::memory::NoMemory;
use base::name::Name;
use std::alloc::Global;
use std::collections::BTreeMap;
use std::marker::Model;
use syntax_tree::member::{Function, TypedName};
use syntax_tree::source::{SourceForm, SourceMember};

/// Names, in order.
#[derive(Drop)]
struct Names {
    items: Vec<Name>,
}

impl Model for Names {
    ghost use Rattle.std.specs.Prelude.{List, ℕ};

    ghost Value = { List (List ℕ) };

    ghost view = { λ n. n.items.items };
}

/// The parameters of a module's functions, by the names of the functions.
#[derive(Drop)]
pub struct Parameters {
    table: BTreeMap<Name, Names>,
}

impl Parameters {
    /// The parameters of the function of this name, if there is one.
    pub fn get(&self, function: &Name) -> Option<&[Name]>
        ensures { option_map (λ names. names.now) result ≡ parameters_at self.now.table function.now }
    {
        match self.table.get(function) {
            Some(names) => Some(names.items.as_slice()),
            None => None,
        }
    }
}

/// The names of parameters.
fn names_of(alloc: Global, inputs: &[TypedName]) -> Result<Names, NoMemory>
    ensures { IfOk result (λ names. names ≡ names_of inputs.now) }
{
    let mut items = Vec::with_capacity(alloc, inputs.len())?;
    for input in inputs {
        items.push(input.name.text.try_clone(alloc)?)?;
    }
    Ok(Names { items })
}

/// Adds the parameters of a function to the table, unless it has a function of that name.
fn add_function(
    alloc: Global,
    function: &Function,
    table: &mut BTreeMap<Name, Names>,
) -> Result<(), NoMemory>
    ensures { OnOk result (IsAdded function.now table.old table.new) }
{
    match table.get(&function.name.text) {
        Some(_) => Ok(()),
        None => {
            let names = names_of(alloc, &function.inputs.items)?;
            table.insert(function.name.text.try_clone(alloc)?, names)?;
            Ok(())
        }
    }
}

/// Returns the parameters of the functions among the members: of two of the same name, those of the first.
pub fn parameters_in(alloc: Global, members: &[SourceMember]) -> Result<Parameters, NoMemory>
    ensures { IfOk result (λ found. IsTableOf found.table members.now) }
{
    let mut table = BTreeMap::new(alloc);
    for member in members {
        if let SourceForm::Function(function) = &member.form {
            add_function(alloc, function, &mut table)?;
        }
    }
    Ok(Parameters { table })
}

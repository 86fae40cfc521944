//! Vector types, and vectors made of other vectors.

ghost use Rattle.std.specs.Prelude.{◌≡◌, ◌++◌, map, filter, IfOk, OnOk};
ghost use Rattle.axiom_instances.specs.Numbers.{term_at, type_at};
ghost use Rattle.axiom_strategy.specs.Beside.{is_vector_type, is_made_vector, is_made_form, HaveNumber, AreIn, AreVectorTypes, AreTypeAskers, alone_asker, beside_asker, beside_askers};

use crate::askers::Asker;
use crate::typings::Typing;
use axiom_instances::reading::{TermForm, term_form, vector_items};
use base::memory::NoMemory;
use fol::operators::{Binary, Constant, Ternary, Unary};
use indexmap::IndexSet;
use std::alloc::Global;
use term_pool::pool::Pool;

// ---- types

fn is_vector_type(pool: &Pool, of: usize) -> bool
    ensures { result ≡ is_vector_type (type_at pool.now of) }
{
    match vector_items(pool, of) {
        Some(_) => true,
        None => false,
    }
}

// Appends a number that has not been seen.
fn add_new(
    numbers: &mut Vec<usize>,
    seen: &mut IndexSet<usize>,
    number: usize,
) -> Result<(), NoMemory>
    requires { AreIn seen.old.keys numbers.old.items }
    ensures seen { OnOk result (AreIn seen.new.keys numbers.new.items) }
    ensures has { OnOk result (HaveNumber numbers.old.items numbers.new.items number) }
{
    let fresh = seen.insert(number)?;
    if !fresh {
        return Ok(());
    }
    numbers.push(number)?;
    Ok(())
}

// The vector types among the given types, each once.
fn vector_types(alloc: Global, pool: &Pool, typings: &[Typing]) -> Result<Vec<usize>, NoMemory>
    ensures { IfOk result (λ types. AreVectorTypes pool.now typings.now types.items) }
{
    let mut types = Vec::new(alloc);
    let mut seen = IndexSet::new(alloc);
    for typing in typings {
        if !is_vector_type(pool, typing.of) {
            continue;
        }
        add_new(&mut types, &mut seen, typing.of)?;
    }
    Ok(types)
}

// ---- terms

fn is_made_form(form: TermForm) -> bool
    ensures { result ≡ is_made_form form }
{
    match form {
        TermForm::Constant(Constant::Empty) => true,
        TermForm::Unary(Unary::Pop, _) => true,
        TermForm::Binary(Binary::Push, _, _) => true,
        TermForm::Ternary(Ternary::Set, _, _, _) => true,
        _ => false,
    }
}

// Decides whether a term is the empty vector or a vector made of another one.
fn is_made(pool: &Pool, term: usize) -> bool
    ensures { result ≡ is_made_vector (term_at pool.now term) }
{
    is_made_form(term_form(pool, term))
}

// The terms that are the empty vector or a vector made of another one.
fn made_terms(alloc: Global, pool: &Pool, terms: &[usize]) -> Result<Vec<usize>, NoMemory>
    ensures { IfOk result (λ made. made.items ≡ filter (λ n. is_made_vector (term_at pool.now n)) terms.now) }
{
    let mut made = Vec::new(alloc);
    for term in terms {
        if !is_made(pool, *term) {
            continue;
        }
        made.push(*term)?;
    }
    Ok(made)
}

// ---- triggers

// Appends a trigger for each of the types.
fn add_types(askers: &mut Vec<Asker>, typings: &[Typing]) -> Result<(), NoMemory>
    ensures { OnOk result (askers.new.items ≡ askers.old.items ++ map alone_asker typings.now) }
{
    for typing in typings {
        askers.push(Asker::TypeAlone(typing.of))?;
    }
    Ok(())
}

// Appends a trigger for a type beside each of the terms.
fn add_beside_type(askers: &mut Vec<Asker>, of: usize, terms: &[usize]) -> Result<(), NoMemory>
    ensures { OnOk result (askers.new.items ≡ askers.old.items ++ map (beside_asker of) terms.now) }
{
    for term in terms {
        askers.push(Asker::Beside(of, *term))?;
    }
    Ok(())
}

// Appends a trigger for each of the types beside each of the terms.
fn add_beside(askers: &mut Vec<Asker>, types: &[usize], terms: &[usize]) -> Result<(), NoMemory>
    ensures { OnOk result (askers.new.items ≡ askers.old.items ++ beside_askers terms.now types.now) }
{
    for of in types {
        add_beside_type(askers, *of, terms)?;
    }
    Ok(())
}

/// Returns the trigger that is on every branch, a trigger for each of the given types, and one for each vector type
/// among them beside each term that is the empty vector or a vector made of another one. `NoMemory` if memory runs
/// out.
pub fn type_askers(
    alloc: Global,
    pool: &Pool,
    terms: &[usize],
    typings: &[Typing],
) -> Result<Vec<Asker>, NoMemory>
    ensures { IfOk result (λ askers. AreTypeAskers pool.now terms.now typings.now askers.items) }
{
    let types = vector_types(alloc, pool, typings)?;
    let made = made_terms(alloc, pool, terms)?;
    let mut askers = Vec::new(alloc);
    askers.push(Asker::Always)?;
    add_types(&mut askers, typings)?;
    add_beside(&mut askers, types.as_slice(), made.as_slice())?;
    Ok(askers)
}

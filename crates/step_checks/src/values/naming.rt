//! Decides whether given numbers are representatives of a branch's classes.

ghost use Rattle.std.specs.Prelude.{◌≡◌, ◌<◌, ◌↔◌, ℕ, length, slice_index, Some, nat_eq, IsTrue, IfOk};
ghost use Rattle.indexmap.specs.IndexMap.{get};
ghost use Rattle.tableau.specs.PoolBranches.{branch_in, IsOver};
ghost use Rattle.tableau.specs.Terms.{AreClassesOf};
ghost use Rattle.step_checks.specs.Naming.{Agrees, Follows, AreClassNames};

use base::memory::NoMemory;
use congruence_closure::branch_classes::BranchClasses;
use indexmap::IndexMap;
use row_reasoning::class_names::class_names;
use std::alloc::Global;
use tableau::aliasing::terms::terms;
use tableau::branch::PoolBranch;
use term_pool::numbers::{look_up, note};
use term_pool::pool::Pool;

// A representative by its number; 0 past the end.
fn name_of(names: &[usize], number: usize) -> usize
    ensures { result ≡ slice_index names.now number }
{
    if number < names.len() {
        names[number]
    } else {
        0
    }
}

/// The representatives, padded with 0 to the given count.
pub(crate) fn filled(alloc: Global, names: &[usize], count: usize) -> Result<Vec<usize>, NoMemory>
    ensures long { IfOk result (λ made. length made.items ≡ count) }
    ensures same { IfOk result (λ made. (n : ℕ) → n < count → slice_index made.items n ≡ slice_index names.now n) }
{
    let mut made = Vec::with_capacity(alloc, count)?;
    for number in 0..count {
        made.push(name_of(names, number))?;
    }
    Ok(made)
}

// Decides whether a key has this value; a key without a value gets it.
fn agrees(found: &mut IndexMap<usize, usize>, key: usize, value: usize) -> Result<bool, NoMemory>
    ensures { IfOk result (Agrees key value (get nat_eq found.old) (get nat_eq found.new)) }
{
    if let Some(known) = look_up(found, key) {
        return Ok(known == value);
    }
    note(found, key, value)?;
    Ok(true)
}

// Decides whether, among these numbers, equal first representatives imply equal second ones.
fn follows(
    alloc: Global,
    numbers: &[usize],
    first: &[usize],
    second: &[usize],
) -> Result<bool, NoMemory>
    ensures { IfOk result (λ known. IsTrue known ↔ Follows numbers.now first.now second.now) }
{
    let mut found = IndexMap::new(alloc);
    for number in numbers {
        let key = name_of(first, *number);
        let value = name_of(second, *number);
        let agreed = agrees(&mut found, key, value)?;
        if !agreed {
            return Ok(false);
        }
    }
    Ok(true)
}

/// Decides whether the names, by the numbers of the pool, are representatives of the classes of the branch's terms: two
/// terms have the same name exactly if they are joined. `classes` are the branch's; a number past the names has the
/// name 0. The running time is linear in the length of the pool.
///
/// # Errors
///
/// Only if memory runs out.
pub fn is_naming(
    alloc: Global,
    pool: &Pool,
    branch: &PoolBranch,
    classes: &BranchClasses,
    names: &[usize],
) -> Result<bool, NoMemory>
    requires over { IsOver pool.now branch.now }
    requires classes { AreClassesOf pool.now branch.now classes.now }
    ensures { IfOk result (λ known. IsTrue known ↔ AreClassNames pool.now (branch_in pool.now branch.now) names.now) }
{
    pool.one_number();
    let terms = terms(alloc, pool, branch)?;
    let right = class_names(alloc, pool, branch, classes, terms.as_slice())?;
    let is_one = follows(alloc, terms.as_slice(), right.as_slice(), names)?;
    if !is_one {
        return Ok(false);
    }
    follows(alloc, terms.as_slice(), names, right.as_slice())
}

//! The case-split heuristic: it ranks splits by how many cases they leave open.

pub mod guess;
pub mod outlook;
pub mod said;

use crate::ranks::guess::{Guess, whole_number};
use crate::ranks::outlook::{Outlook, both, denied};
use crate::ranks::said::{DEPTH, Part, Said, class_of, numeral_at, parts_of, sides_of};
use base::memory::NoMemory;
use congruence_closure::branch_classes::BranchClasses;
use fol::operators::Junction;
use indexmap::IndexMap;
use std::alloc::Global;
use tableau::branch::PoolBranch;
use term_pool::pool::Pool;

/// A case split at an entry, with its rank. A lower rank means that the split is likely to close sooner.
#[derive(Clone, Copy, Debug)]
pub struct RankedSplit {
    pub entry: usize,
    pub rank: u32,
}

/// A split with a rank below this one leaves at most one case neither closed nor violated.
pub const URGENT: u32 = 200;

// What a case adds to the rank of its split. A case that is already on the branch gains nothing.
fn weight(outlook: Outlook) -> u32 {
    match outlook {
        Outlook::Closed => 0,
        Outlook::Violated => 1,
        Outlook::Open => 100,
        Outlook::Held => 103,
        Outlook::Stands => 100_000,
    }
}

// The rank of a split into cases one of which must hold.
fn rank_of_cases(said: &Said<'_>, cases: &[Part]) -> Result<u32, NoMemory> {
    let mut rank: u32 = 0;
    for case in cases {
        rank = rank.saturating_add(weight(said.outlook(*case, DEPTH)?));
    }
    Ok(rank)
}

// The rank of a split of an equivalence: both sides hold or neither does; or, for its negation, exactly one does.
fn rank_of_sides(
    said: &Said<'_>,
    left: usize,
    right: usize,
    is_denied: bool,
) -> Result<u32, NoMemory> {
    let first = said.outlook(
        Part {
            formula: left,
            is_denied: false,
        },
        DEPTH,
    )?;
    let second = said.outlook(
        Part {
            formula: right,
            is_denied,
        },
        DEPTH,
    )?;
    let one = weight(both(first, second));
    let other = weight(both(denied(first), denied(second)));
    Ok(one.saturating_add(other))
}

// The rank of the split at an entry; `None` if the entry has no cases.
fn rank_at(
    alloc: Global,
    pool: &Pool,
    said: &Said<'_>,
    formula: usize,
) -> Result<Option<u32>, NoMemory> {
    let part = Part {
        formula,
        is_denied: false,
    };
    if let Some((left, right, is_denied)) = sides_of(pool, part) {
        return Ok(Some(rank_of_sides(said, left, right, is_denied)?));
    }
    match parts_of(alloc, pool, part)? {
        Some(parts) => {
            if parts.junction == Junction::AnyOf {
                Ok(Some(rank_of_cases(said, parts.items.as_slice())?))
            } else {
                Ok(None)
            }
        }
        None => Ok(None),
    }
}

/// Returns the entries with cases and their ranks, in order. `classes` are those of the branch. The running time is
/// linear in the number of entries, with what occurs in them down to a depth of 4. `NoMemory` if memory runs out.
pub fn ranked_splits(
    alloc: Global,
    pool: &Pool,
    branch: &PoolBranch,
    classes: &BranchClasses,
    guess: Option<&Guess>,
) -> Result<Vec<RankedSplit>, NoMemory> {
    let said = Said::new(alloc, pool, branch, classes, guess)?;
    let mut found = Vec::new(alloc);
    for entry in 0..branch.len() {
        let Some(stated) = branch.entry(entry) else {
            continue;
        };
        if let Some(rank) = rank_at(alloc, pool, &said, stated.formula)? {
            found.push(RankedSplit { entry, rank })?;
        }
    }
    Ok(found)
}

// Decides whether two distinct numerals are in one class.
fn numerals_meet(alloc: Global, pool: &Pool, classes: &BranchClasses) -> Result<bool, NoMemory> {
    let mut numerals: IndexMap<usize, i128> = IndexMap::new(alloc);
    for number in classes.numbers() {
        let Some(value) = numeral_at(pool, *number) else {
            continue;
        };
        let Some(class) = class_of(classes, *number) else {
            continue;
        };
        if let Some(other) = numerals.insert(class, value)? {
            if other != value {
                return Ok(true);
            }
        }
    }
    Ok(false)
}

// Decides whether some entry has cases.
fn has_cases(alloc: Global, pool: &Pool, branch: &PoolBranch) -> Result<bool, NoMemory> {
    for entry in 0..branch.len() {
        let Some(stated) = branch.entry(entry) else {
            continue;
        };
        let part = Part {
            formula: stated.formula,
            is_denied: false,
        };
        if sides_of(pool, part).is_some() {
            return Ok(true);
        }
        if let Some(parts) = parts_of(alloc, pool, part)? {
            if parts.junction == Junction::AnyOf {
                return Ok(true);
            }
        }
    }
    Ok(false)
}

/// Decides whether to solve a branch's rows before anything else is added: two distinct numerals are in one class, or
/// some split leaves at most one case open. `classes` are those of the branch. `NoMemory` if memory runs out.
pub fn is_urgent(
    alloc: Global,
    pool: &Pool,
    branch: &PoolBranch,
    classes: &BranchClasses,
) -> Result<bool, NoMemory> {
    if numerals_meet(alloc, pool, classes)? {
        return Ok(true);
    }
    if !has_cases(alloc, pool, branch)? {
        return Ok(false);
    }
    let ranked = ranked_splits(alloc, pool, branch, classes, None)?;
    Ok(ranked.iter().any(|split| split.rank < URGENT))
}

/// Returns, for each number of the pool, a name of its value in the solution of the rows: the same for equal whole
/// numbers, and 0 if the value is unknown or not whole. `NoMemory` if memory runs out.
pub fn value_names(
    alloc: Global,
    pool: &Pool,
    branch: &PoolBranch,
    classes: &BranchClasses,
    guess: &Guess,
) -> Result<Vec<usize>, NoMemory> {
    let said = Said::new(alloc, pool, branch, classes, Some(guess))?;
    let mut names: IndexMap<i128, usize> = IndexMap::new(alloc);
    let mut found = Vec::with_capacity(alloc, pool.len())?;
    for number in 0..pool.len() {
        let name = match said.guessed_value(number) {
            Some(value) => name_of(&mut names, whole_number(value))?,
            None => 0,
        };
        found.push(name)?;
    }
    Ok(found)
}

// The name of a value, which gets one if it has none; 0 if there is no value.
fn name_of(names: &mut IndexMap<i128, usize>, value: Option<i128>) -> Result<usize, NoMemory> {
    let Some(value) = value else {
        return Ok(0);
    };
    if let Some(name) = names.get(&value) {
        return Ok(*name);
    }
    let name = names.len().saturating_add(1);
    names.insert(value, name)?;
    Ok(name)
}

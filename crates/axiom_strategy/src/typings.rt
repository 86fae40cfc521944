//! Types that entries give to terms or deny them.

ghost use Rattle.std.specs.Prelude.{◌≡◌, ◌+◌, length, IfOk, OnOk, MatchOption};
ghost use Rattle.tableau.specs.PoolBranches.{branch_in, IsFormulaNumber, IsOver};
ghost use Rattle.axiom_instances.specs.Numbers.{formula_at};
ghost use Rattle.axiom_strategy.specs.Typings.{given_of, IsNoGiving, IsGivingOf, IsUntyped, IsTypingOf, IsUntypedEntry, IsTypingEntry, AreTypings};

use base::memory::NoMemory;
use std::alloc::Global;
use tableau::branch::PoolBranch;
use term_pool::node::{Node, Two};
use term_pool::pool::Pool;

/// A type that is given to a term or denied it, by number.
#[derive(Clone, Copy)]
pub struct Typing {
    pub of: usize,
    pub term: usize,
}

fn given_of(node: Node) -> Option<Typing>
    ensures { result ≡ given_of node }
{
    match node {
        Node::Two(Two::Is, of, term) => Some(Typing { of, term }),
        _ => None,
    }
}

// The type and the term of a formula stating that the term has the type.
fn given_type(pool: &Pool, formula: usize) -> Option<Typing>
    ensures { MatchOption result (IsNoGiving (formula_at pool.now formula)) (IsGivingOf pool.now (formula_at pool.now formula)) }
{
    match pool.node(formula) {
        Some(node) => given_of(node),
        None => None,
    }
}

/// The type and the term of a formula stating that the term has the type, or negating this; `None` for any other
/// formula.
pub fn typing_of(pool: &Pool, formula: usize) -> Option<Typing>
    ensures { MatchOption result (IsUntyped (formula_at pool.now formula)) (IsTypingOf pool.now (formula_at pool.now formula)) }
{
    if let Some(typing) = given_type(pool, formula) {
        return Some(typing);
    }
    let Some(denied) = pool.denied(formula) else {
        return None;
    };
    given_type(pool, denied)
}

// The type and the term of an entry that gives the type to the term or denies it.
fn typing_at(pool: &Pool, branch: &PoolBranch, i: usize) -> Option<Typing>
    requires { IsOver pool.now branch.now }
    ensures { MatchOption result (IsUntypedEntry (branch_in pool.now branch.now) i) (IsTypingEntry pool.now (branch_in pool.now branch.now) i) }
{
    let Some(entry) = branch.entry(i) else {
        return None;
    };
    typing_of(pool, entry.formula)
}

// Appends the type and the term of an entry that gives the type to the term or denies it.
fn add_typing(
    typings: &mut Vec<Typing>,
    pool: &Pool,
    branch: &PoolBranch,
    i: usize,
) -> Result<(), NoMemory>
    requires over { IsOver pool.now branch.now }
    requires before { AreTypings pool.now (branch_in pool.now branch.now) i typings.old.items }
    ensures { OnOk result (AreTypings pool.now (branch_in pool.now branch.now) (i + 1) typings.new.items) }
{
    match typing_at(pool, branch, i) {
        Some(typing) => {
            typings.push(typing)?;
            Ok(())
        }
        None => Ok(()),
    }
}

/// Returns the types that entries give to terms or deny them, with these terms: one pair for each such entry.
/// `NoMemory` if memory runs out.
pub fn typings(alloc: Global, pool: &Pool, branch: &PoolBranch) -> Result<Vec<Typing>, NoMemory>
    requires { IsOver pool.now branch.now }
    ensures { IfOk result (λ found. AreTypings pool.now (branch_in pool.now branch.now) (length branch.now.entries) found.items) }
{
    let mut typings = Vec::new(alloc);
    for i in 0..branch.len() {
        add_typing(&mut typings, pool, branch, i)?;
    }
    Ok(typings)
}

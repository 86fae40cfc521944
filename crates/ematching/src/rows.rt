//! The terms of a trigger, each with its candidates: the terms of the branch that it may match.

ghost use Rattle.std.specs.Prelude.{◌≡◌, [], IfOk, MatchOption};
ghost use Rattle.fol.specs.FormulaData.{list_of_terms};
ghost use Rattle.term_pool.specs.Items.{TermsSort};
ghost use Rattle.tableau.specs.PoolBranches.{branch_in, IsTermNumber, IsOver};
ghost use Rattle.tableau.specs.Terms.{IsBranchTerm};
ghost use Rattle.ematching.specs.Numbers.{terms_at, IsOfSort};
ghost use Rattle.ematching.specs.Heads.{HasHead, IsIndexOf};
ghost use Rattle.ematching.specs.Listed.{AreThose};
ghost use Rattle.ematching.specs.Rows.{AreCandidates, AreRows, IsFirstOf};

use crate::heads::{HeadIndex, head_of};
use crate::node::is_bound;
use base::memory::NoMemory;
use std::alloc::Global;
use tableau::aliasing::terms::{is_term, terms};
use tableau::branch::PoolBranch;
use term_pool::node::{Node, Two};
use term_pool::pool::Pool;

/// A term of a trigger, with its candidates.
#[derive(Drop)]
pub(crate) struct Row {
    pub(crate) pattern: usize,
    pub(crate) candidates: Vec<usize>,
}

// The terms of the branch with this head symbol.
fn held_with_head(
    alloc: Global,
    pool: &Pool,
    branch: &PoolBranch,
    index: &HeadIndex,
    head: Node,
) -> Result<Vec<usize>, NoMemory>
    requires over { IsOver pool.now branch.now }
    requires index { IsIndexOf pool.now index.now }
    ensures { IfOk result (λ numbers. AreThose (λ n. HasHead pool.now head n × IsBranchTerm pool.now (branch_in pool.now branch.now) n) numbers.items) }
{
    let mut numbers = Vec::new(alloc);
    let all = index.with_head(alloc, head)?;
    for number in &all {
        if !is_term(pool, branch, *number) {
            continue;
        }
        numbers.push(*number)?;
    }
    Ok(numbers)
}

// The terms of the branch that the pattern may match.
fn candidates(
    alloc: Global,
    pool: &Pool,
    branch: &PoolBranch,
    index: &HeadIndex,
    bound: &[u32],
    pattern: usize,
) -> Result<Vec<usize>, NoMemory>
    requires over { IsOver pool.now branch.now }
    requires index { IsIndexOf pool.now index.now }
    requires pattern { IsTermNumber pool.now pattern }
    ensures { IfOk result (λ numbers. AreCandidates pool.now (branch_in pool.now branch.now) bound.now pattern numbers.items) }
{
    pool.one_number();
    let Some(node) = pool.node(pattern) else {
        return Ok(Vec::new(alloc));
    };
    if is_bound(bound, node) {
        return terms(alloc, pool, branch);
    }
    held_with_head(alloc, pool, branch, index, head_of(node))
}

// The numbers of the first term of a list and of the rest.
fn first_term(pool: &Pool, list: usize) -> Option<(usize, usize)>
    requires { IsOfSort pool.now TermsSort list }
    ensures { MatchOption result (list_of_terms (terms_at pool.now list) ≡ []) (IsFirstOf pool.now list) }
{
    match pool.node(list) {
        Some(Node::Two(Two::ConsTerm, first, rest)) => Some((first, rest)),
        _ => None,
    }
}

/// The rows of the terms of a list.
pub(crate) fn rows(
    alloc: Global,
    pool: &Pool,
    branch: &PoolBranch,
    index: &HeadIndex,
    bound: &[u32],
    list: usize,
) -> Result<Vec<Row>, NoMemory>
    requires over { IsOver pool.now branch.now }
    requires index { IsIndexOf pool.now index.now }
    requires list { IsOfSort pool.now TermsSort list }
    ensures { IfOk result (λ rows. AreRows pool.now (branch_in pool.now branch.now) bound.now (list_of_terms (terms_at pool.now list)) rows.items) }
{
    let mut rows = Vec::new(alloc);
    let mut rest = list;
    while let Some((pattern, others)) = first_term(pool, rest) {
        let terms = candidates(alloc, pool, branch, index, bound, pattern)?;
        rows.push(Row {
            pattern,
            candidates: terms,
        })?;
        rest = others;
    }
    Ok(rows)
}

//! Clashes that do not need congruence.

ghost use Rattle.std.specs.Prelude.{MatchOption};
ghost use Rattle.tableau.specs.PoolBranches.{branch_in, IsOver};
ghost use Rattle.closing_rules.specs.Literal.{IsLiteralClash, IsNotLiteralAt, IsNotLiteral};

use crate::clashes::clash::Clash;
use crate::clashes::forms::is_false_form;
use tableau::branch::PoolBranch;
use term_pool::pool::Pool;

// The clash at the entry with this number: its formula is false by its form, or negates the formula of an entry.
fn literal_at(pool: &Pool, branch: &PoolBranch, i: usize) -> Option<Clash>
    requires { IsOver pool.now branch.now }
    ensures { MatchOption result (IsNotLiteralAt (branch_in pool.now branch.now) i) (IsLiteralClash (branch_in pool.now branch.now)) }
{
    let Some(entry) = branch.entry(i) else {
        return None;
    };
    if is_false_form(pool, entry.formula) {
        return Some(Clash::False(i));
    }
    let Some(inner) = pool.denied(entry.formula) else {
        return None;
    };
    match branch.first(pool, inner) {
        Some(said) => Some(Clash::Opposed(said, i)),
        None => None,
    }
}

/// Finds an entry that negates the formula of another one, or an entry that is false by its form; `None` if there is
/// neither. The running time is linear in the number of entries.
pub fn next_literal(pool: &Pool, branch: &PoolBranch) -> Option<Clash>
    requires { IsOver pool.now branch.now }
    ensures { MatchOption result (IsNotLiteral (branch_in pool.now branch.now)) (IsLiteralClash (branch_in pool.now branch.now)) }
{
    for i in 0..branch.len() {
        if let Some(clash) = literal_at(pool, branch, i) {
            return Some(clash);
        }
    }
    None
}

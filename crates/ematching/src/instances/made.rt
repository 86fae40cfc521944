//! The instance of a universal formula for a term, in a pool.

ghost use Rattle.std.specs.Prelude.{◌≡◌, IfOk};
ghost use Rattle.term_pool.specs.Pools.{Extends};
ghost use Rattle.tableau.specs.PoolBranches.{IsFormulaNumber, IsTermNumber};
ghost use Rattle.ematching.specs.Numbers.{term_at, formula_at};
ghost use Rattle.ematching.specs.QuantifierFree.{quantifier_free};
ghost use Rattle.ematching.specs.Bodies.{universal_at, IsInstanceNumber, IsSaidNumber};

use crate::quantified::Universal;
use base::memory::NoMemory;
use std::alloc::Global;
use substitution::instances::substitute::substitute;
use term_pool::interning::intern_formula;
use term_pool::node::{Node, One};
use term_pool::pool::Pool;
use term_pool::pool_substitution::put::{Put, put_in};
use term_pool::reading::{read_formula, read_term};

// The body with the term substituted for the variable, built as a tree: bound variables that would capture variables
// of the term are renamed.
fn renamed(
    alloc: Global,
    pool: &mut Pool,
    universal: Universal,
    term: usize,
) -> Result<usize, NoMemory>
    ensures extends { Extends pool.old pool.new }
    ensures is { IfOk result (IsInstanceNumber pool.new universal.variable (term_at pool.old term) (formula_at pool.old universal.body)) }
{
    let body = read_formula(alloc, pool, universal.body)?;
    let value = read_term(alloc, pool, term)?;
    let made = substitute(alloc, &body, universal.variable, &value)?;
    intern_formula(pool, &made)
}

// The body with the term substituted for the variable.
fn instance(
    alloc: Global,
    pool: &mut Pool,
    universal: Universal,
    is_free: bool,
    term: usize,
) -> Result<usize, NoMemory>
    requires body { IsFormulaNumber pool.old universal.body }
    requires term { IsTermNumber pool.old term }
    requires free { is_free ≡ quantifier_free (formula_at pool.old universal.body) }
    ensures extends { Extends pool.old pool.new }
    ensures is { IfOk result (IsInstanceNumber pool.new universal.variable (term_at pool.old term) (formula_at pool.old universal.body)) }
{
    if !is_free {
        return renamed(alloc, pool, universal, term);
    }
    let put = Put {
        variable: universal.variable,
        term,
    };
    put_in(alloc, pool, put, universal.body)
}

/// Returns the number of the instance for the term; `is_free` tells whether the body is quantifier-free.
pub(crate) fn said_of(
    alloc: Global,
    pool: &mut Pool,
    universal: Universal,
    is_free: bool,
    term: usize,
) -> Result<usize, NoMemory>
    requires body { IsFormulaNumber pool.old universal.body }
    requires term { IsTermNumber pool.old term }
    requires free { is_free ≡ quantifier_free (formula_at pool.old universal.body) }
    ensures extends { Extends pool.old pool.new }
    ensures is { IfOk result (IsSaidNumber pool.new (universal_at pool.old universal) (term_at pool.old term)) }
{
    let said = instance(alloc, pool, universal, is_free, term)?;
    if universal.is_denied {
        return pool.insert(Node::One(One::Not, said));
    }
    Ok(said)
}

//! Routes: edges, each entered where the one before it is left, and the equation of the two ends.

ghost use Rattle.std.specs.Prelude.{◌≡◌, ℕ, None, slice_index_or, OnOk, IfOk, IfSome};
ghost use Rattle.term_pool.specs.Pools.{Extends};
ghost use Rattle.certificates.specs.BranchesBranch.{Branch};
ghost use Rattle.explanations.specs.Chains.{term_at, HasPositions, Keeps, IsChain, CanBegin};
ghost use Rattle.congruence_closure.specs.Numbers.{number_at};
ghost use Rattle.explanations.specs.Routes.{equation_at, IsEquation, IsEither, CanPass, end_of, CanGo, IsSingle};

use crate::chain::{Chain, Swap};
use base::memory::NoMemory;
use congruence_closure::proof_forest::Join;
use term_pool::pool::Pool;

/// The number of a node in the pool.
pub fn number_of(numbers: &[usize], node: usize) -> usize
    ensures { result ≡ number_at numbers.now node }
{
    match numbers.get(node) {
        Some(number) => *number,
        None => 0,
    }
}

/// The index of the equation of an edge.
pub fn equation_of(equations: &[Option<usize>], link: usize) -> Option<usize>
    ensures { result ≡ equation_at equations.now link }
{
    match equations.get(link) {
        Some(position) => *position,
        None => None,
    }
}

/// Returns an index of the equation of a term with the one at the far end of an edge, where the source is the equation
/// with the one at its near end.
pub fn pass(
    pool: &mut Pool,
    chain: &mut Chain,
    numbers: &[usize],
    equations: &[Option<usize>],
    left: usize,
    join: Join,
    source: usize,
) -> Result<usize, NoMemory>
    requires source { IsEquation pool.old chain.old source left (number_at numbers.now join.near) }
    requires pass { CanPass pool.old chain.old numbers.now equations.now left join }
    requires positions { HasPositions chain.old }
    ensures extends { Extends pool.old pool.new }
    ensures positions { OnOk result (HasPositions chain.new) }
    ensures keeps { OnOk result (Keeps chain.old chain.new) }
    ensures at { IfOk result (λ position. IsEquation pool.new chain.new position left (number_at numbers.now join.far)) }
    ensures chain { OnOk result ((b : Branch) → IsChain pool.old b chain.old → IsChain pool.new b chain.new) }
{
    let from = number_of(numbers, join.near);
    let to = number_of(numbers, join.far);
    match equation_of(equations, join.link) {
        Some(equation) => chain.put_right(pool, left, Swap { equation, from, to }, source),
        None => Ok(source),
    }
}

/// Returns an index of the equation of the terms at the ends of a route.
pub fn along(
    pool: &mut Pool,
    chain: &mut Chain,
    numbers: &[usize],
    equations: &[Option<usize>],
    from: usize,
    route: &[Join],
) -> Result<usize, NoMemory>
    requires route { CanGo pool.old chain.old numbers.now equations.now from route.now }
    requires positions { HasPositions chain.old }
    ensures extends { Extends pool.old pool.new }
    ensures positions { OnOk result (HasPositions chain.new) }
    ensures keeps { OnOk result (Keeps chain.old chain.new) }
    ensures at { IfOk result (λ position. IsEquation pool.new chain.new position (number_at numbers.now from) (number_at numbers.now (end_of from route.now))) }
    ensures chain { OnOk result ((b : Branch) → IsChain pool.old b chain.old → CanBegin b chain.old (term_at pool.old (number_at numbers.now from)) → IsChain pool.new b chain.new) }
{
    let left = number_of(numbers, from);
    let mut position = chain.itself(pool, left)?;
    for join in route {
        let next = pass(pool, chain, numbers, equations, left, *join, position)?;
        position = next;
    }
    Ok(position)
}

// The index of the equation of the only edge of a route.
fn single(equations: &[Option<usize>], route: &[Join]) -> Option<usize>
    ensures { IfSome result (λ position. IsSingle equations.now route.now position) }
{
    if route.len() == 1 {
        equation_of(equations, route[0].link)
    } else {
        None
    }
}

/// Returns an index of the equation of the terms at the ends of a route, in either order: the equation of an edge if
/// the route has only one.
pub fn between(
    pool: &mut Pool,
    chain: &mut Chain,
    numbers: &[usize],
    equations: &[Option<usize>],
    from: usize,
    route: &[Join],
) -> Result<usize, NoMemory>
    requires route { CanGo pool.old chain.old numbers.now equations.now from route.now }
    requires positions { HasPositions chain.old }
    ensures extends { Extends pool.old pool.new }
    ensures positions { OnOk result (HasPositions chain.new) }
    ensures keeps { OnOk result (Keeps chain.old chain.new) }
    ensures at { IfOk result (λ position. IsEither pool.new chain.new position (number_at numbers.now from) (number_at numbers.now (end_of from route.now))) }
    ensures chain { OnOk result ((b : Branch) → IsChain pool.old b chain.old → CanBegin b chain.old (term_at pool.old (number_at numbers.now from)) → IsChain pool.new b chain.new) }
{
    match single(equations, route) {
        Some(position) => Ok(position),
        None => along(pool, chain, numbers, equations, from, route),
    }
}

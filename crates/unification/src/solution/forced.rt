//! What is known of type variables before defaults are applied.

ghost use Rattle.std.specs.Prelude.{IfOk};
ghost use Rattle.unification.specs.Slots.{Fits};
ghost use Rattle.unification.specs.Ranked.{IsRanking};
ghost use Rattle.unification.specs.Numbers.{Keeps};
ghost use Rattle.unification.specs.Forced.{ForcedSays};

use crate::ranks::Ranking;
use crate::solution::numbers::table;
use crate::solution::roots::all_roots;
use crate::type_variables::slots::Slot;
use base::memory::NoMemory;
use std::alloc::Global;
use typing_rules::type_pool::TypePool;

/// For each type variable its representative, and the number of its type if all typings give it the same one.
#[derive(Drop)]
pub struct Forced {
    pub roots: Vec<usize>,
    pub numbers: Vec<Option<usize>>,
}

/// Returns for each type variable its representative, which refers to no other variable, and the number in the pool of
/// the type that all typings which meet the slots give it; none where they do not agree. No default is applied to open
/// types. The time is linear in the slots and the written types. After `NoMemory` the pool may contain some of the
/// types.
pub fn forced_types<'a>(
    alloc: Global,
    pool: &mut TypePool,
    slots: &[Slot<'a>],
    ranking: &Ranking,
) -> Result<Forced, NoMemory>
    requires fits { Fits slots.now }
    requires ranking { IsRanking slots.now ranking.now.ranks.items ranking.now.order.items }
    ensures keeps { IfOk result (λ forced. Keeps pool.old pool.new) }
    ensures says { IfOk result (ForcedSays slots.now pool.new) }
{
    let roots = all_roots(alloc, slots)?;
    let numbers = table(alloc, pool, slots, &ranking.order, slots.len())?;
    Ok(Forced { roots, numbers })
}

//! Vectors of one type that entries state to differ.

ghost use Rattle.std.specs.Prelude.{length, IfOk, OnOk};
ghost use Rattle.tableau.specs.PoolBranches.{branch_in, IsOver};
ghost use Rattle.axiom_strategy.specs.Families.{AskAll, AsksOfPairs};
ghost use Rattle.axiom_strategy.specs.Keyed.{AreListed, ArePairsOf};
ghost use Rattle.axiom_strategy.specs.Typings.{AreTypings};
ghost use Rattle.axiom_strategy.specs.Vectors.{IsTypeFor, AreMoreAskers, IsPairOf};

use crate::askers::Asker;
use crate::decisions::denials::sides_at;
use crate::keyed::KeyedSets;
use crate::typings::Typing;
use base::keyed_lists::pairs::Pairs;
use base::memory::NoMemory;
use std::alloc::Global;
use tableau::branch::PoolBranch;
use term_pool::pool::Pool;

// The types of each term, by these pairs.
fn types_by_term(alloc: Global, typings: &[Typing]) -> Result<KeyedSets, NoMemory>
    ensures pairs { IfOk result (λ types. ArePairsOf types.lists types.pairs) }
    ensures types { IfOk result (λ types. AreListed (IsTypeFor typings.now) types.lists) }
{
    let mut types = KeyedSets::new(alloc);
    for typing in typings {
        types.add(typing.term, typing.of)?;
    }
    Ok(types)
}

// Appends a trigger for two terms with each of these types that the second term has too.
fn add_pair(
    askers: &mut Vec<Asker>,
    types: &[usize],
    pairs: &Pairs,
    left: usize,
    right: usize,
) -> Result<(), NoMemory>
    ensures { OnOk result (AreMoreAskers askers.old.items askers.new.items (IsPairOf types.now pairs.now left right)) }
{
    for of in types {
        if !pairs.has(right, *of) {
            continue;
        }
        askers.push(Asker::Vectors(*of, left, right))?;
    }
    Ok(())
}

/// Returns the triggers for the pairs of terms that entries state to differ, with each type that entries give to both
/// or deny them. `typings` are those of the branch. `NoMemory` if memory runs out.
pub fn vector_askers(
    alloc: Global,
    pool: &Pool,
    branch: &PoolBranch,
    typings: &[Typing],
) -> Result<Vec<Asker>, NoMemory>
    requires over { IsOver pool.now branch.now }
    requires typings { AreTypings pool.now (branch_in pool.now branch.now) (length branch.now.entries) typings.now }
    ensures { IfOk result (λ askers. AskAll pool.now (branch_in pool.now branch.now) askers.items (AsksOfPairs (branch_in pool.now branch.now))) }
{
    pool.one_number();
    let types = types_by_term(alloc, typings)?;
    let mut askers = Vec::new(alloc);
    for i in 0..branch.len() {
        let Some((left, right)) = sides_at(pool, branch, i) else {
            continue;
        };
        let of_left = types.lists.at(left);
        add_pair(&mut askers, of_left, &types.pairs, left, right)?;
    }
    Ok(askers)
}

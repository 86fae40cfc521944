//! The clauses of an owner, in their order.

ghost use Rattle.std.specs.Prelude.{IfOk};
ghost use Rattle.body_types.specs.Plain.{AreCodeTypes};
ghost use Rattle.type_constraints.specs.SpecSettings.{owner_names, owner_types};
ghost use Rattle.type_constraints.specs.Blocks.{block_of};
ghost use Rattle.type_check.specs.Judged.{OwnerSays};

use crate::clauses::judged::{JudgedClause, judge_clause};
use base::memory::NoMemory;
use body_types::code::plain::CodeTypes;
use program::clause::Clause;
use program::program::Program;
use std::alloc::Global;
use type_constraints::clauses::block::Block;
use type_constraints::spec::setting::{Names, Owner};

/// Returns the judgment of each clause of an owner, in blocks of this kind. The `let`s of the clauses before it are in
/// scope of each.
pub fn judge_owner<'a>(
    alloc: Global,
    types: &'a CodeTypes,
    program: &'a Program,
    owner: Owner<'a>,
    block: Block,
    clauses: &'a [Clause],
) -> Result<Vec<JudgedClause>, NoMemory>
    requires { AreCodeTypes types.now }
    ensures { IfOk result (λ judged. OwnerSays program.now (owner_names owner.entry) (block_of block) (owner_types owner.entry) clauses.now judged.items) }
{
    let mut judged = Vec::new(alloc);
    let mut lets = Vec::new(alloc);
    for clause in clauses {
        let names = Names {
            owner,
            lets: lets.as_slice(),
        };
        let (one, of) = judge_clause(alloc, types, program, names, block, clause)?;
        judged.push(one)?;
        lets.push(of)?;
    }
    Ok(judged)
}

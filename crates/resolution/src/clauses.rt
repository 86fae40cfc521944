//! The clauses of one target, in source order across all its spec blocks.

pub mod around;
mod bindings;
pub mod clause;
pub mod context;
mod include;
pub mod pragmas;
pub mod schemas;
pub mod spec_functions;
pub mod targets;

ghost use Rattle.std.specs.Prelude.{◌≡◌, ◌++◌, [], IfErr, OnOk};
ghost use Rattle.scopes.specs.Meanings.{IfUnknown};
ghost use Rattle.resolution.specs.Clauses.{AddedClauses, HasUnknownBehind, entered, placed, placed_one};
ghost use Rattle.resolution.specs.Setting.{scope_of};

use crate::clauses::clause::{is_clause, resolve_clause};
use crate::clauses::context::ClauseContext;
use base::memory::NoMemory;
use base::span::Span;
use body_names::spec::outer::{Outer, OuterName};
use program::clause::Clause;
use program::sequence::Sequence;
use program::spec::SpecName;
use scopes::fault::NameFault;
use std::alloc::Global;
use syntax_tree::clause::Clause as ClauseTree;

/// The clauses of a target so far, and the names in scope in its next clause. One value collects all spec blocks of a
/// target.
#[derive(Drop)]
pub struct Target {
    pub outer: Outer,
    pub clauses: Sequence<Clause>,
}

impl Target {
    /// Returns a target without clauses, with these names around it.
    pub fn new(alloc: Global, outer: Outer) -> Target
        ensures outer { result.outer ≡ outer }
        ensures clauses { result.clauses ≡ [] }
    {
        Target {
            outer,
            clauses: Sequence::new(alloc),
        }
    }
}

/// Brings into scope the name of a `let` with this index among the clauses of its target.
fn enter_let(
    alloc: Global,
    number: usize,
    tree: &ClauseTree,
    into: &mut Outer,
) -> Result<(), NoMemory>
    ensures { OnOk result (into.new ≡ into.old ++ entered number tree.now) }
{
    if let ClauseTree::Let { name, .. } = tree {
        let name = name.text.try_clone(alloc)?;
        let meaning = SpecName::Let(number);
        into.enter(alloc, OuterName { name, meaning })?;
    }
    Ok(())
}

/// Resolves one more clause of a target.
fn resolve_next(
    context: &ClauseContext<'_>,
    block: Span,
    tree: &ClauseTree,
    into: &mut Target,
) -> Result<(), NameFault>
    ensures added { OnOk result (AddedClauses (scope_of context.now) (placed_one block tree.now) into.old into.new) }
    ensures unknown { IfErr result (λ fault. IfUnknown fault (HasUnknownBehind (scope_of context.now) (placed_one block tree.now) into.old)) }
{
    if !is_clause(tree) {
        return Ok(());
    }
    let clause = resolve_clause(context, &into.outer, block, tree)?;
    let number = into.clauses.as_slice().len();
    into.clauses.push(clause)?;
    enter_let(context.alloc, number, tree, &mut into.outer)?;
    Ok(())
}

/// Resolves the clauses of one more spec block of a target, given the span of the block's first token. `Unknown`
/// exactly if some use in one of them has no meaning; `NoMemory` if memory runs out first. After a fault the target may
/// have some of the clauses and must not be used any more.
pub fn resolve_block(
    context: &ClauseContext<'_>,
    block: Span,
    trees: &[ClauseTree],
    into: &mut Target,
) -> Result<(), NameFault>
    ensures added { OnOk result (AddedClauses (scope_of context.now) (placed block trees.now) into.old into.new) }
    ensures unknown { IfErr result (λ fault. IfUnknown fault (HasUnknownBehind (scope_of context.now) (placed block trees.now) into.old)) }
{
    for tree in trees {
        resolve_next(context, block, tree, into)?;
    }
    Ok(())
}

//! The blocks of clauses, and what may occur in their clauses.

ghost use Rattle.std.specs.Prelude.{◌≡◌};
ghost use Rattle.program.specs.declared.clause.ConditionKind.TheVariants.{Invariant};
ghost use Rattle.typing_rules.specs.Clauses as C;
ghost use Rattle.type_constraints.specs.SpecSettings.{allowed_of};
ghost use Rattle.type_constraints.specs.Blocks.{block_of};

use crate::spec::setting::Allowed;
use program::clause::{ClauseForm, ConditionKind};

/// The kinds of blocks that hold clauses.
#[derive(Clone, Copy, Debug, PartialEq, Eq, Hash)]
pub enum Block {
    Function,
    Struct,
    Module,
    Loop,
}

/// Decides whether a block may hold a condition.
pub fn may_hold(block: Block, kind: ConditionKind) -> bool
    ensures { result ≡ C.may_hold (block_of block) kind }
{
    match (block, kind) {
        (Block::Function, ConditionKind::Requires) => true,
        (Block::Function, ConditionKind::Ensures) => true,
        (Block::Function, ConditionKind::AbortsIf) => true,
        (Block::Struct | Block::Loop, ConditionKind::Invariant) => true,
        (Block::Module, ConditionKind::Invariant) => true,
        (Block::Module, ConditionKind::UpdateInvariant) => true,
        _ => false,
    }
}

/// Decides whether it is the block of a function.
pub fn is_function_block(block: Block) -> bool
    ensures { result ≡ C.is_function_block (block_of block) }
{
    match block {
        Block::Function => true,
        _ => false,
    }
}

/// Neither `old` nor a result nor a name of the state at the exit.
fn entry_alone() -> Allowed
    ensures { allowed_of result ≡ C.entry_alone }
{
    Allowed {
        old: false,
        results: false,
        exits: false,
    }
}

/// `old`, results and names of the state at the exit.
fn both_states() -> Allowed
    ensures { allowed_of result ≡ C.both_states }
{
    Allowed {
        old: true,
        results: true,
        exits: true,
    }
}

/// What may occur in an invariant that is no update invariant.
fn allowed_in_invariant(block: Block) -> Allowed
    ensures { allowed_of result ≡ C.allowed_in (block_of block) Invariant }
{
    match block {
        Block::Loop => Allowed {
            old: true,
            results: false,
            exits: false,
        },
        _ => entry_alone(),
    }
}

/// What may occur in a condition.
fn allowed_in(block: Block, kind: ConditionKind) -> Allowed
    ensures { allowed_of result ≡ C.allowed_in (block_of block) kind }
{
    match kind {
        ConditionKind::Ensures => both_states(),
        ConditionKind::UpdateInvariant => Allowed {
            old: true,
            results: false,
            exits: true,
        },
        ConditionKind::Invariant => allowed_in_invariant(block),
        ConditionKind::Requires | ConditionKind::AbortsIf => entry_alone(),
    }
}

/// Returns what may occur in the expressions of a clause.
pub fn allowed_by(block: Block, form: &ClauseForm) -> Allowed
    ensures { allowed_of result ≡ C.allowed_by (block_of block) form.now }
{
    match form {
        ClauseForm::Condition(kind, _) => allowed_in(block, *kind),
        ClauseForm::Modifies(_) => entry_alone(),
        ClauseForm::Let { is_post, .. } => {
            if *is_post {
                both_states()
            } else {
                entry_alone()
            }
        }
        ClauseForm::Include { .. } => both_states(),
    }
}

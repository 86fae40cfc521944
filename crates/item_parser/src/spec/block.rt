//! Readers of blocks of clauses.

ghost use Rattle.std.specs.Prelude.{◌≡◌};
ghost use Rattle.parser_base.specs.ReadFault.{Reads};
ghost use Rattle.item_parser.specs.BlockReading.{block_at, clauses_at, in_function, in_loop, in_module, in_struct, may_hold, may_hold_all};

use crate::spec::clause::read_clause;
use parser_base::fault::ReadFault;
use parser_base::signs::{begins_with, expect_sign};
use std::alloc::Global;
use syntax_tree::clause::{Clause, Clauses};
use syntax_tree::slot::Slot;
use tokens::token::{Punctuation, Token};

/// Decides whether the block of a function may hold a clause.
fn in_function(clause: &Clause) -> bool
    ensures { result ≡ in_function clause.now }
{
    match clause {
        Clause::Pragma { .. } => true,
        Clause::Requires { .. } => true,
        Clause::Ensures { .. } => true,
        Clause::AbortsIf { .. } => true,
        Clause::Modifies { .. } => true,
        Clause::Let { .. } => true,
        Clause::Include(_) => true,
        Clause::Invariant { .. } => false,
        Clause::Variable(_) => false,
    }
}

/// Decides whether the block of a struct may hold a clause.
fn in_struct(clause: &Clause) -> bool
    ensures { result ≡ in_struct clause.now }
{
    match clause {
        Clause::Pragma { .. } => true,
        Clause::Invariant { is_update, .. } => !*is_update,
        Clause::Let { .. } => true,
        Clause::Include(_) => true,
        _ => false,
    }
}

/// Decides whether the block of a module may hold a clause.
fn in_module(clause: &Clause) -> bool
    ensures { result ≡ in_module clause.now }
{
    match clause {
        Clause::Pragma { .. } => true,
        Clause::Invariant { .. } => true,
        Clause::Let { .. } => true,
        Clause::Include(_) => true,
        _ => false,
    }
}

/// Decides whether the block of a loop may hold a clause.
fn in_loop(clause: &Clause) -> bool
    ensures { result ≡ in_loop clause.now }
{
    match clause {
        Clause::Invariant { is_update, .. } => !*is_update,
        _ => false,
    }
}

/// Decides whether a block may hold a clause.
fn may_hold(slot: Slot, clause: &Clause) -> bool
    ensures { result ≡ may_hold slot clause.now }
{
    match slot {
        Slot::Function => in_function(clause),
        Slot::Struct => in_struct(clause),
        Slot::Module => in_module(clause),
        Slot::Schema => true,
        Slot::SpecFunction => false,
        Slot::Loop => in_loop(clause),
    }
}

/// Decides whether a block may hold all of these clauses.
fn may_hold_all(slot: Slot, clauses: &[Clause]) -> bool
    ensures { result ≡ may_hold_all slot clauses.now }
{
    clauses.iter().all(|clause| may_hold(slot, clause))
}

/// Reads the clauses of a block up to its brace. Returns them and the tokens from the brace on.
fn read_clauses(
    alloc: Global,
    tokens: &[Token],
    budget: usize,
) -> Result<(Vec<Clause>, &[Token]), ReadFault>
    ensures { Reads result (λ read. (read.0.items, read.1.now)) (clauses_at budget tokens.now) }
{
    let mut clauses = Vec::new(alloc);
    let mut rest = tokens;
    for _ in 0..tokens.len() {
        if begins_with(rest, Punctuation::RightBrace) {
            return Ok((clauses, rest));
        }
        let (clause, behind) = read_clause(alloc, rest, budget)?;
        clauses.push(clause)?;
        rest = behind;
    }
    Ok((clauses, rest))
}

/// Returns the tokens from the first clause on that the block may not hold, where its reading ends.
fn from_first_refused(alloc: Global, slot: Slot, tokens: &[Token], budget: usize) -> &[Token] {
    let mut rest = tokens;
    for _ in 0..tokens.len() {
        match read_clause(alloc, rest, budget) {
            Ok((clause, behind)) if may_hold(slot, &clause) => rest = behind,
            _ => return rest,
        }
    }
    rest
}

/// Reads the clauses of a block in its braces. Returns them and the remaining tokens. `budget` bounds the nesting of
/// its types and expressions.
///
/// # Errors
///
/// `NoTree` if the tokens begin with no block of this slot of at most this nesting, `NoMemory` if memory runs out.
#[tactic(auto, unfolding(crate::specs::BlockReading::block_at))]
pub fn read_block(
    alloc: Global,
    slot: Slot,
    tokens: &[Token],
    budget: usize,
) -> Result<(Clauses, &[Token]), ReadFault>
    ensures { Reads result (λ read. (read.0, read.1.now)) (block_at slot budget tokens.now) }
{
    let inside = expect_sign(tokens, Punctuation::LeftBrace)?;
    let (items, rest) = read_clauses(alloc, inside, budget)?;
    if may_hold_all(slot, items.as_slice()) {
        let rest = expect_sign(rest, Punctuation::RightBrace)?;
        Ok((Clauses { items }, rest))
    } else {
        let refused = from_first_refused(alloc, slot, inside, budget);
        Err(ReadFault::NoTree {
            left: refused.len(),
        })
    }
}

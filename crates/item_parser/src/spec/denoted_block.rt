//! The spec block of a slot that tokens denote.

ghost use Rattle.std.specs.Prelude.{◌≡◌, ℕ, None, Some, List, IfOk, IfErr, MatchResult};
ghost use Rattle.tokens.specs.declared.token.Token.{Token};
ghost use Rattle.syntax_tree.specs.declared.slot.Slot.{Slot};
ghost use Rattle.syntax_tree.specs.declared.clause.Spec.{Spec};
ghost use Rattle.syntax_tree.specs.ClauseSpelling.{spec_tree_spelling};
ghost use Rattle.syntax_tree.specs.ProperClauses.{IsProperBlock};
ghost use Rattle.parser_base.specs.ReadFault.{IfNoTree};
ghost use Rattle.item_parser.specs.DenotedBlocks.{IsCause};
ghost use Rattle.syntax_tree.specs.DenotedClauses.{IsSpecBlockOf};
ghost use Rattle.item_parser.specs.WholeBlockReading.{whole_at};

use crate::spec::spec_block::read_spec_block;
use parser_base::explain::{ParseFault, explain};
use parser_base::fault::ReadFault;
use std::alloc::Global;
use syntax_tree::clause::Spec as SpecBlock;
use syntax_tree::slot::Slot;
use tokens::token::{Token, Tokens};

/// Returns the spec block of this slot that the tokens denote: they spell it, and it is proper for the slot. The tokens
/// include the word `spec` and the braces.
///
/// # Errors
///
/// `Grammar` exactly if the tokens denote no such block and hold no marker of a form that is left out; its byte offset,
/// about where reading ended, is a hint that no clause pins. `LeftOut` exactly if they denote none and hold a marker,
/// with the index of the first one. `NoMemory` if memory runs out.
pub fn spec_block(alloc: Global, tokens: &Tokens, slot: Slot) -> Result<SpecBlock, ParseFault>
    ensures denoted { IfOk result (λ block. IsSpecBlockOf slot block tokens.now) }
    ensures refused { IfErr result (λ fault. IsCause slot tokens.now fault) }
{
    let slice = tokens.as_slice();
    match read_whole(alloc, slot, slice, slice.len() + 1) {
        Ok(block) => Ok(block),
        Err(fault) => Err(explain(slice, fault)),
    }
}

/// Reads a spec block of this slot that takes all tokens. `budget` bounds the nesting of its types and expressions.
///
/// # Errors
///
/// `NoTree` if the tokens are not such a block of at most this nesting, `NoMemory` if memory runs out.
#[tactic(auto, unfolding(crate::specs::WholeBlockReading::whole_at))]
fn read_whole(
    alloc: Global,
    slot: Slot,
    tokens: &[Token],
    budget: usize,
) -> Result<SpecBlock, ReadFault>
    ensures { MatchResult result (λ block. whole_at slot budget tokens.now ≡ Some block) (λ fault. IfNoTree fault (whole_at slot budget tokens.now ≡ None)) }
{
    let (block, rest) = read_spec_block(alloc, slot, tokens, budget)?;
    match rest.split_first() {
        None => Ok(block),
        Some(_) => Err(ReadFault::NoTree { left: rest.len() }),
    }
}

/// Law: tokens denote at most one spec block of a slot.
pub fn one_spec_block()
    ensures { (slot : Slot) (tokens : List Token) (one other : Spec)
        → IsSpecBlockOf slot one tokens → IsSpecBlockOf slot other tokens → one ≡ other }
{}

/// Law: two proper spec blocks of a slot with the same spelling are equal.
pub fn one_spelling()
    ensures { (slot : Slot) (one other : Spec)
        → IsProperBlock slot one → IsProperBlock slot other → spec_tree_spelling one ≡ spec_tree_spelling other → one ≡ other }
{}

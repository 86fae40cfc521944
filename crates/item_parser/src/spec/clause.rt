//! Readers of clauses.

ghost use Rattle.std.specs.Prelude.{◌≡◌};
ghost use Rattle.parser_base.specs.ReadFault.{Reads};
ghost use Rattle.item_parser.specs.ClauseReading.{clause_at, clause_behind, opens_variable, variable_at, worded_at};

use crate::spec::conditions::{
    read_aborts_if, read_ensures, read_invariant, read_let, read_requires,
};
use crate::spec::includes::read_include;
use crate::spec::pragmas::read_pragmas;
use crate::spec::targets::read_modifies;
use crate::spec::words::{ClauseWord, clause_word};
use base::span::Span;
use parser_base::fault::ReadFault;
use parser_base::signs::{begins_with, expect_sign, is_keyword, read_identifier};
use parser_base::types::read_type;
use std::alloc::Global;
use syntax_tree::clause::Clause;
use syntax_tree::member::TypedName;
use tokens::token::{Punctuation, Token, TokenKind};

/// Decides whether a variable of a schema is here: a name before a colon.
#[tactic(auto, unfolding(crate::specs::ClauseReading::opens_variable, parser_base::specs::TokenReading::identifier_at))]
fn opens_variable(tokens: &[Token]) -> bool
    ensures { result ≡ opens_variable tokens.now }
{
    let Some((token, rest)) = tokens.split_first() else {
        return false;
    };
    match &token.kind {
        TokenKind::Word(name) if !is_keyword(name.as_slice()) => {
            begins_with(rest, Punctuation::Colon)
        }
        _ => false,
    }
}

/// Reads a variable of a schema. Returns it and the remaining tokens.
#[tactic(auto, unfolding(crate::specs::ClauseReading::variable_at))]
fn read_variable(
    alloc: Global,
    tokens: &[Token],
    budget: usize,
) -> Result<(Clause, &[Token]), ReadFault>
    ensures { Reads result (λ read. (read.0, read.1.now)) (variable_at budget tokens.now) }
{
    let (name, rest) = read_identifier(alloc, tokens)?;
    let rest = expect_sign(rest, Punctuation::Colon)?;
    let (annotation, rest) = read_type(alloc, rest, budget)?;
    let rest = expect_sign(rest, Punctuation::Semicolon)?;
    Ok((Clause::Variable(TypedName { name, annotation }), rest))
}

/// Reads a clause after its word.
fn read_behind_word(
    alloc: Global,
    word: ClauseWord,
    span: Span,
    tokens: &[Token],
    budget: usize,
) -> Result<(Clause, &[Token]), ReadFault>
    ensures { Reads result (λ read. (read.0, read.1.now)) (clause_behind budget word span tokens.now) }
{
    match word {
        ClauseWord::Pragma => read_pragmas(alloc, span, tokens),
        ClauseWord::Requires => read_requires(alloc, span, tokens, budget),
        ClauseWord::Ensures => read_ensures(alloc, span, tokens, budget),
        ClauseWord::AbortsIf => read_aborts_if(alloc, span, tokens, budget),
        ClauseWord::Modifies => read_modifies(alloc, span, tokens, budget),
        ClauseWord::Invariant => read_invariant(alloc, span, tokens, budget),
        ClauseWord::Let => read_let(alloc, span, tokens, budget),
        ClauseWord::Include => read_include(alloc, span, tokens, budget),
    }
}

/// Reads a clause that begins with its word. Returns it and the remaining tokens.
#[tactic(auto, unfolding(crate::specs::ClauseReading::worded_at))]
fn read_worded(
    alloc: Global,
    tokens: &[Token],
    budget: usize,
) -> Result<(Clause, &[Token]), ReadFault>
    ensures { Reads result (λ read. (read.0, read.1.now)) (worded_at budget tokens.now) }
{
    match clause_word(tokens) {
        Some((word, span, rest)) => read_behind_word(alloc, word, span, rest, budget),
        None => Err(ReadFault::NoTree { left: tokens.len() }),
    }
}

/// Reads a clause. `budget` bounds the nesting of its types and expressions. Returns it and the remaining tokens.
///
/// # Errors
///
/// `NoTree` if the tokens begin with no clause of at most this nesting, `NoMemory` if memory runs out.
#[tactic(auto, unfolding(crate::specs::ClauseReading::clause_at))]
pub fn read_clause(
    alloc: Global,
    tokens: &[Token],
    budget: usize,
) -> Result<(Clause, &[Token]), ReadFault>
    ensures { Reads result (λ read. (read.0, read.1.now)) (clause_at budget tokens.now) }
{
    if opens_variable(tokens) {
        read_variable(alloc, tokens, budget)
    } else {
        read_worded(alloc, tokens, budget)
    }
}

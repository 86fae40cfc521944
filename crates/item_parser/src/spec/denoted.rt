//! The spec expression that tokens denote.

ghost use Rattle.std.specs.Prelude.{◌≡◌, None, Some, List, IfOk, IfErr, MatchResult};
ghost use Rattle.tokens.specs.declared.token.Token.{Token};
ghost use Rattle.syntax_tree.specs.SpecExpressionData.{SpecExpressionData};
ghost use Rattle.syntax_tree.specs.SpecExpressionSpelling.{spec_spelling};
ghost use Rattle.syntax_tree.specs.ProperSpecExpressions.{IsProperSpec};
ghost use Rattle.parser_base.specs.ReadFault.{IfNoTree};
ghost use Rattle.item_parser.specs.SpecDenoted.{IsSpecExpressionOf, IsCause};
ghost use Rattle.item_parser.specs.WholeReading.{whole_at};

use expression_parser::spec::expression::read_spec_expression;
use parser_base::explain::{ParseFault, explain};
use parser_base::fault::ReadFault;
use std::alloc::Global;
use syntax_tree::spec_expression::SpecExpression;
use tokens::token::{Token, Tokens};

/// Returns the spec expression that the tokens denote: they spell it, and it is proper.
///
/// # Errors
///
/// `Grammar` exactly if the tokens denote no spec expression and hold no marker of a form that is left out; its byte
/// offset, about where reading ended, is a hint that no clause pins. `LeftOut` exactly if they denote none and hold a
/// marker, with the index of the first one. `NoMemory` if memory runs out.
pub fn spec_expression(alloc: Global, tokens: &Tokens) -> Result<SpecExpression, ParseFault>
    ensures denoted { IfOk result (λ expression. IsSpecExpressionOf expression tokens.now) }
    ensures refused { IfErr result (λ fault. IsCause tokens.now fault) }
{
    let slice = tokens.as_slice();
    match read_whole(alloc, slice, slice.len() + 1) {
        Ok(expression) => Ok(expression),
        Err(fault) => Err(explain(slice, fault)),
    }
}

/// Reads a spec expression that takes all tokens. `budget` bounds its nesting.
///
/// # Errors
///
/// `NoTree` if the tokens are not a spec expression of at most this nesting, `NoMemory` if memory runs out.
#[tactic(auto, unfolding(crate::specs::WholeReading::whole_at))]
fn read_whole(alloc: Global, tokens: &[Token], budget: usize) -> Result<SpecExpression, ReadFault>
    ensures { MatchResult result (λ expression. whole_at budget tokens.now ≡ Some expression) (λ fault. IfNoTree fault (whole_at budget tokens.now ≡ None)) }
{
    let (expression, rest) = read_spec_expression(alloc, tokens, budget)?;
    match rest.split_first() {
        None => Ok(expression),
        Some(_) => Err(ReadFault::NoTree { left: rest.len() }),
    }
}

/// Law: tokens denote at most one spec expression.
pub fn one_spec_expression()
    ensures { (tokens : List Token) (one other : SpecExpressionData)
        → IsSpecExpressionOf one tokens → IsSpecExpressionOf other tokens → one ≡ other }
{}

/// Law: two proper spec expressions with the same spelling are equal.
pub fn one_spelling()
    ensures { (one other : SpecExpressionData)
        → IsProperSpec one → IsProperSpec other → spec_spelling one ≡ spec_spelling other → one ≡ other }
{}

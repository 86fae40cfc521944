//! Readers of the storage locations in a `modifies`.

ghost use Rattle.std.specs.Prelude.{true, length};
ghost use Rattle.parser_base.specs.ReadFault.{Reads};
ghost use Rattle.parser_base.specs.TokenReading.{after_sign};
ghost use Rattle.parser_base.specs.ListReading.{some_items_at};
ghost use Rattle.expression_parser.specs.SpecReading.{spec_at};
ghost use Rattle.item_parser.specs.ClauseReading.{modifies_at};

use base::span::Span;
use expression_parser::spec::expression::read_spec_expression;
use parser_base::fault::ReadFault;
use parser_base::lists::{Separator, separator_behind};
use std::alloc::Global;
use syntax_tree::clause::{Clause, Targets};
use syntax_tree::spec_expression::SpecExpression;
use tokens::token::{Punctuation, Token};

/// Reads spec expressions up to the end of their clause. Returns the expressions, whether a comma follows the last, and
/// the tokens after the end.
fn read_target_list(
    alloc: Global,
    tokens: &[Token],
    budget: usize,
) -> Result<(Vec<SpecExpression>, bool, &[Token]), ReadFault>
    ensures { Reads result (λ read. ((read.0.items, read.1), read.2.now)) (some_items_at (after_sign Punctuation.Semicolon) (spec_at budget true 0) tokens.now) }
{
    let mut items = Vec::new(alloc);
    let mut rest = tokens;
    for _ in 0..tokens.len() {
        let (item, behind) = read_spec_expression(alloc, rest, budget)?;
        items.push(item)?;
        match separator_behind(behind, Punctuation::Semicolon)? {
            (Separator::Next, behind) => rest = behind,
            (Separator::End, behind) => return Ok((items, false, behind)),
            (Separator::EndBehindComma, behind) => return Ok((items, true, behind)),
        }
    }
    Err(ReadFault::NoTree { left: 0 })
}

/// Reads a `modifies` after its word.
#[tactic(auto, unfolding(crate::specs::ClauseReading::modifies_at))]
pub fn read_modifies(
    alloc: Global,
    span: Span,
    tokens: &[Token],
    budget: usize,
) -> Result<(Clause, &[Token]), ReadFault>
    ensures { Reads result (λ read. (read.0, read.1.now)) (modifies_at budget span tokens.now) }
{
    let (items, last_comma, rest) = read_target_list(alloc, tokens, budget)?;
    let targets = Targets { items, last_comma };
    Ok((Clause::Modifies { span, targets }, rest))
}

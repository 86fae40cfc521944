//! Two or more expressions in parentheses.

ghost use Rattle.parser_base.specs.ReadFault.{Reads};
ghost use Rattle.parser_base.specs.ParenthesesReading.{several};

use crate::fault::ReadFault;
use base::span::Span;
use syntax_tree::expression::{Expression, ExpressionNode};
use tokens::token::Token;

/// Reads two or more expressions in parentheses, after the first.
#[tactic(auto, using(crate::proofs::SeveralLemmas::several_none, crate::proofs::SeveralLemmas::several_some))]
pub fn several(
    span: Span,
    first: Box<Expression>,
    more: Vec<Expression>,
    last_comma: bool,
    rest: &[Token],
) -> Result<(Expression, &[Token]), ReadFault>
    ensures { Reads result (λ read. (read.0, read.1.now)) (several span first.value (more.items, last_comma) rest.now) }
{
    if more.is_empty() {
        return Err(ReadFault::NoTree { left: rest.len() });
    }
    let mut items = more;
    items.insert(0, Box::into_inner(first))?;
    let node = ExpressionNode::Tuple {
        span,
        items,
        last_comma,
    };
    Ok((Expression { node }, rest))
}

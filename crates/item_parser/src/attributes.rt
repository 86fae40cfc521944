//! Readers of attributes.

ghost use Rattle.std.specs.Prelude.{length};
ghost use Rattle.parser_base.specs.ReadFault.{Reads};
ghost use Rattle.item_parser.specs.AttributeReading.{attribute_at, attributes_at};

use base::span::Span;
use parser_base::balanced::read_balanced;
use parser_base::fault::ReadFault;
use parser_base::signs::{expect_sign, span_of_sign};
use std::alloc::Global;
use syntax_tree::member::Attribute;
use tokens::token::{Punctuation, Token};

/// Reads an attribute after its number sign at `span`. Returns it and the remaining tokens.
#[tactic(auto, unfolding(crate::specs::AttributeReading::attribute_at))]
pub fn read_attribute(
    alloc: Global,
    span: Span,
    tokens: &[Token],
) -> Result<(Attribute, &[Token]), ReadFault>
    ensures { Reads result (λ read. (read.0, read.1.now)) (attribute_at span tokens.now) }
{
    let inside = expect_sign(tokens, Punctuation::LeftBracket)?;
    let (kept, rest) = read_balanced(alloc, Punctuation::RightBracket, inside)?;
    Ok((Attribute { span, tokens: kept }, rest))
}

/// Reads any number of attributes. Returns them and the remaining tokens.
#[tactic(auto, unfolding(crate::specs::AttributeReading::attributes_at))]
pub fn read_attributes(
    alloc: Global,
    tokens: &[Token],
) -> Result<(Vec<Attribute>, &[Token]), ReadFault>
    ensures { Reads result (λ read. (read.0.items, read.1.now)) (attributes_at tokens.now) }
{
    let mut items = Vec::new(alloc);
    let mut rest = tokens;
    for _ in 0..tokens.len() {
        let Some((span, inside)) = span_of_sign(rest, Punctuation::NumberSign) else {
            return Ok((items, rest));
        };
        let (item, behind) = read_attribute(alloc, span, inside)?;
        items.push(item)?;
        rest = behind;
    }
    Ok((items, rest))
}

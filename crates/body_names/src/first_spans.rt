//! The spans of the first tokens of paths and literals.

ghost use Rattle.std.specs.Prelude.{◌≡◌};
ghost use Rattle.body_names.specs.FirstSpans.{address_span, literal_span, path_span};

use base::span::Span;
use syntax_tree::literal::Literal;
use syntax_tree::path::{Address, Path};

fn address_span(address: &Address) -> Span
    ensures { result ≡ address_span address.now }
{
    match address {
        Address::Number(number) => number.span,
        Address::Name(name) => name.span,
    }
}

/// Returns the span of a path's first token.
pub fn path_span(path: &Path) -> Span
    ensures { result ≡ path_span path.now }
{
    match path {
        Path::Name(name) => name.span,
        Path::Member(owner, _) => owner.span,
        Path::Full(owner, _) => address_span(&owner.address),
    }
}

/// Returns the span of a literal's first token.
pub fn literal_span(literal: &Literal) -> Span
    ensures { result ≡ literal_span literal.now }
{
    match literal {
        Literal::Number(number) => number.span,
        Literal::Truth { span, .. } => *span,
        Literal::Address { span, .. } => *span,
    }
}

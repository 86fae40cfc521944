//! Spans of declarations that break a rule.

ghost use Rattle.std.specs.Prelude.{◌≡◌, Some, None, if◌then◌else◌};

use base::span::Span;

/// The span, if a rule is broken.
pub(crate) fn span_if(is_broken: bool, span: Span) -> Option<Span>
    ensures { result ≡ (if is_broken then Some span else None) }
{
    if is_broken { Some(span) } else { None }
}

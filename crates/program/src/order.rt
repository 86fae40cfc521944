//! The order of spans.

ghost use Rattle.std.specs.Prelude.{◌↔◌, IsTrue};
ghost use Rattle.program.specs.Order.{IsBefore, IsEarlier};

use base::span::Span;

/// Decides whether the left span is in an earlier file, or begins earlier in the same file.
pub fn is_before(left: Span, right: Span) -> bool
    ensures { IsTrue result ↔ IsBefore left right }
{
    left.file < right.file || (left.file == right.file && left.start < right.start)
}

/// Returns the earlier one of two spans: the left one, if neither is before the other.
pub fn earlier(left: Option<Span>, right: Option<Span>) -> Option<Span>
    ensures { IsEarlier left right result }
{
    match (left, right) {
        (None, _) => right,
        (_, None) => left,
        (Some(a), Some(b)) => { if is_before(b, a) { right } else { left } }
    }
}

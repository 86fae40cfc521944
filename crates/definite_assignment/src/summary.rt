//! Summaries of pieces of code.

ghost use Rattle.std.specs.Prelude.{◌≡◌, ◌<◌, length, Some, slice_get};

use crate::effects::Effects;
use crate::sets::LocalSet;

/// The effects of a piece of code on locals, the locals that it binds as a pattern or a `let`, and, where it is an
/// lvalue that is a whole local, that local.
#[derive(Clone, Copy)]
pub struct Summary {
    pub effects: Effects,
    pub binds: LocalSet,
    pub local: Option<usize>,
}

/// The summary with this number.
pub fn summary_at(summaries: &[Summary], index: usize) -> &Summary
    requires { index < length summaries.now }
    ensures { slice_get summaries.now index ≡ Some result.now }
{
    &summaries[index]
}

//! Checks that nothing is declared twice in files.

ghost use Rattle.std.specs.Prelude.{◌≤◌, ◌^◌, length, MatchResult};
ghost use Rattle.front_end.specs.FileFault.{IfInFile};
ghost use Rattle.front_end.specs.Twice.{HasNoneTwice, HasTwice};

use crate::fault::{FileFault, ProgramFault};
use base::rule::Rule;
use scopes::modules::sources::first_twice_of;
use std::alloc::Global;
use syntax_tree::source::Source;

/// Checks that nothing is declared twice.
///
/// # Errors
///
/// `TwiceDeclared` if and only if something is, with the first declaration that repeats an earlier one.
pub fn check_twice(alloc: Global, sources: &[Source]) -> Result<(), ProgramFault>
    requires few { length sources.now ≤ 2 ^ 32 }
    ensures { MatchResult result (λ _. HasNoneTwice sources.now) (λ fault. IfInFile fault (HasTwice sources.now)) }
{
    match first_twice_of(alloc, sources)? {
        None => Ok(()),
        Some((file, offset)) => {
            let fault = FileFault::breaks(Rule::TwiceDeclared, offset);
            Err(ProgramFault::InFile(file as u32, fault))
        }
    }
}

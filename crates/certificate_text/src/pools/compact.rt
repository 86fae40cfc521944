//! Compaction of a pool to the nodes that a proof trace needs.

ghost use Rattle.std.specs.Prelude.{◌≡◌, List, IfOk, OnOk, OnErr};
ghost use Rattle.std.specs.List.{AllZip};
ghost use Rattle.certificates.specs.ProofTraces.{Application};
ghost use Rattle.search.specs.Applications.{IsApplicationOf};
ghost use Rattle.certificate_text.specs.Moves.{FitApplications};

use crate::pools::applications::renumber;
use crate::pools::needs::needed_nodes;
use crate::pools::nodes::copy_marked;
use base::memory::NoMemory;
use search::trees::application::PoolApplication;
use std::alloc::Global;
use term_pool::pool::Pool;

/// Returns a smaller pool for the trace and renumbers the trace: over this pool it has the same rule applications as
/// over the other one. The pool has the nodes that the trace names and their parts; that it has no others is not
/// proved.
///
/// # Errors
///
/// Only if memory ran out. The trace is unchanged then.
pub fn compact(alloc: Global, pool: &Pool, text: &mut [PoolApplication]) -> Result<Pool, NoMemory>
    ensures applications { (applications : List Application) → AllZip (IsApplicationOf pool.now) text.old applications → IfOk result (λ made. AllZip (IsApplicationOf made) text.new applications) }
    ensures fit { FitApplications text.old → OnOk result (FitApplications text.new) }
    ensures kept { OnErr result (text.new ≡ text.old) }
{
    let marks = needed_nodes(alloc, pool, text)?;
    let (made, numbers) = copy_marked(alloc, pool, marks.as_slice())?;
    renumber(numbers.as_slice(), text);
    Ok(made)
}

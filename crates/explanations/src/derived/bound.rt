//! Variables that are bound on the path to a position.

ghost use Rattle.std.specs.Prelude.{◌≡◌, ◌<◌, length, MatchBool, IfOk};
ghost use Rattle.term_pool.specs.Pools.{item_at};
ghost use Rattle.explanations.specs.Frames.{bound_on};
ghost use Rattle.explanations.specs.BoundNodes.{IsCaptured, IsUncaptured, variable_of, variable_below};

use crate::frame::Frame;
use base::memory::NoMemory;
use std::alloc::Global;
use term_pool::node::Two;
use term_pool::pool::Pool;
use term_pool::variables::is_free;

// The variable that a head symbol binds in its parts.
fn variable_of(head: Two) -> Option<u32>
    ensures { result ≡ variable_of head }
{
    match head {
        Two::Quantify(_, variable) => Some(variable),
        _ => None,
    }
}

// The variable that a head symbol binds in its hole.
fn variable_below(frame: Frame) -> Option<u32>
    ensures { result ≡ variable_below frame }
{
    match frame {
        Frame::FirstOfTwo(head, _) | Frame::SecondOfTwo(head, _) => variable_of(head),
        _ => None,
    }
}

/// Decides whether no variable that the context binds is free in the item with this number, which is in its hole. If
/// the context binds no variable, it visits no node.
pub(crate) fn is_uncaptured(
    alloc: Global,
    pool: &Pool,
    way: &[Frame],
    number: usize,
) -> Result<bool, NoMemory>
    requires { number < length pool.now }
    ensures { IfOk result (λ uncaptured. MatchBool uncaptured (IsUncaptured (bound_on way.now) (item_at pool.now number)) (IsCaptured (bound_on way.now) (item_at pool.now number))) }
{
    for head in way {
        if let Some(variable) = variable_below(*head) {
            let captured = is_free(alloc, pool, variable, number)?;
            if captured {
                return Ok(false);
            }
        }
    }
    Ok(true)
}
